//! The forms that lines have.

ghost use Rattle.std.specs.Prelude.{◌≡◌, option_map};
ghost use Rattle.json_text.specs.Json.{first_read, is_order, list_of, read_line, start, template, words_behind};

/// What a line is.
#[derive(Clone, Copy, Debug, PartialEq, Eq)]
pub(crate) enum Form {
    Output,
    Cell,
    Row,
    Deferred,
    Waiting,
    FramesSuffice,
    StepsSuffice,
    FramesBounded,
    StepsBounded,
    Frames,
    Clash,
    Stuck,
    End,
    Event,
    Work,
    Span,
    Parallelism,
    Wave,
    Machine,
    Differ,
    Orders,
    Order,
    Place,
    Well,
    RefusedProgram,
    RefusedRead,
    RefusedCheck,
    RefusedSlots,
    RefusedCode,
    RefusedInput,
    RefusedEnough,
    Refused,
    Other,
}

/// The forms, in the order in which they are tried.
const FORMS: [Form; 32] = [
    Form::Event,
    Form::Cell,
    Form::Wave,
    Form::Place,
    Form::Output,
    Form::Row,
    Form::Deferred,
    Form::Waiting,
    Form::FramesSuffice,
    Form::StepsSuffice,
    Form::FramesBounded,
    Form::StepsBounded,
    Form::Frames,
    Form::Clash,
    Form::Stuck,
    Form::End,
    Form::Work,
    Form::Span,
    Form::Parallelism,
    Form::Machine,
    Form::Differ,
    Form::Orders,
    Form::Order,
    Form::Well,
    Form::RefusedProgram,
    Form::RefusedRead,
    Form::RefusedCheck,
    Form::RefusedSlots,
    Form::RefusedCode,
    Form::RefusedInput,
    Form::RefusedEnough,
    Form::Refused,
];

impl Form {
    /// The words that a line of this form begins with.
    fn start(self) -> &'static [u8]
        ensures { result.now ≡ start self }
    {
        match self {
            Form::Output => b"output",
            Form::Cell => b"cell",
            Form::Row => b"cells",
            Form::Deferred => b"deferred",
            Form::Waiting => b"waiting",
            Form::FramesSuffice => b"frames that suffice in every order:",
            Form::StepsSuffice => b"steps that suffice in every order:",
            Form::FramesBounded =>
                b"frames that suffice in every order where each loop's bound is at least",
            Form::StepsBounded =>
                b"steps that suffice in every order where each loop's bound is at least",
            Form::Frames => b"frames",
            Form::Clash => b"end Clash",
            Form::Stuck => b"end Stuck",
            Form::End => b"end",
            Form::Event => b"event",
            Form::Work => b"work",
            Form::Span => b"span",
            Form::Parallelism => b"parallelism",
            Form::Wave => b"wave",
            Form::Machine => b"elements",
            Form::Differ => b"orders differ",
            Form::Orders => b"orders",
            Form::Order => b"order",
            Form::Place => b"at",
            Form::Well => b"ok",
            Form::RefusedProgram => b"refused: program",
            Form::RefusedRead => b"refused: read",
            Form::RefusedCheck => b"refused: check",
            Form::RefusedSlots => b"refused: slots",
            Form::RefusedCode => b"refused: emit",
            Form::RefusedInput => b"refused: input",
            Form::RefusedEnough => b"refused: enough",
            Form::Refused => b"refused:",
            Form::Other => b"",
        }
    }

    /// The key of the list whose items lines of this form are, or none.
    pub(crate) fn list(self) -> &'static [u8]
        ensures { result.now ≡ list_of self }
    {
        match self {
            Form::Output => b"outputs",
            Form::Cell => b"cells",
            Form::Row => b"rows",
            Form::Event => b"events",
            Form::Wave => b"waves",
            Form::Machine => b"machines",
            Form::Place => b"places",
            Form::Other => b"lines",
            _ => b"",
        }
    }

    /// What a line of this form becomes, with slots for the words after those that it begins with.
    pub(crate) fn template(self) -> &'static [u8]
        ensures { result.now ≡ template self }
    {
        match self {
            Form::Output => b"-|v",
            Form::Cell => br#".{"array":|w,"index":|n,"value":|v}"#,
            Form::Row => br#".{"array":|w,"index":|n,"values":|r}"#,
            Form::Deferred => br#"."deferred":|N"#,
            Form::Waiting => br#"."waiting":{"frames":|n,"credits":|N}"#,
            Form::FramesSuffice => br#"."frames_that_suffice":|N"#,
            Form::StepsSuffice => br#"."steps_that_suffice":|N"#,
            Form::FramesBounded => br#"."where_bounds_are_at_least":|b,"frames_that_suffice":|N"#,
            Form::StepsBounded => br#"-"steps_that_suffice":|N"#,
            Form::Frames => br#"."frames":|N"#,
            Form::Clash => br#"."end":"Clash","array":|w,"index":|N"#,
            Form::Stuck => br#"."end":"Stuck","rule":|W"#,
            Form::End => br#"."end":|W"#,
            Form::Event =>
                br#".{"event":|n,"element":|n,"frame":|n,"at":|w,"name":|w,"port":|w,"deed":|w,"word":|W}"#,
            Form::Work => br#"."work":|N"#,
            Form::Span => br#"."span":|N"#,
            Form::Parallelism => br#"."parallelism":|W"#,
            Form::Wave => b"-|N",
            Form::Machine =>
                br#".{"elements":|n,"rounds":|-|n,"tokens":|-|n,"slots":|-|n,"frames":|-|n,"end":|-|w,"array":|w,"index":|N}"#,
            Form::Differ => br#"."differ":|?"#,
            Form::Orders => br#"."orders":|n,"differ":false|-"#,
            Form::Order => br#"."order":|N"#,
            Form::Place => br#".{"block":|n,"node":|n,"line":|-|n,"column":|-|N}"#,
            Form::Well => br#"."ok":|?"#,
            Form::RefusedProgram =>
                br#"."refused":{"stage":"program","kind":|w,"line":|-|n,"column":|-|N}"#,
            Form::RefusedRead => br#"."refused":{"stage":"read","kind":|w,"line":|-|N}"#,
            Form::RefusedCheck =>
                br#"."refused":{"stage":"check","kind":|w,"block":|-|n,"node":|-|N}"#,
            Form::RefusedSlots => br#"."refused":{"stage":"slots","kind":|w,"block":|-|N}"#,
            Form::RefusedCode => br#"."refused":{"stage":"emit","kind":|w,"block":|-|N}"#,
            Form::RefusedInput => br#"."refused":{"stage":"input","line":|-|N}"#,
            Form::RefusedEnough => br#"."refused":{"stage":"enough","kind":|w,"frames":|N}"#,
            Form::Refused => br#"."refused":{"stage":|w,"kind":|W}"#,
            Form::Other => b"t",
        }
    }

    /// Whether a line of this form begins a report in a list.
    pub(crate) fn is_order(self) -> bool
        ensures { result ≡ is_order self }
    {
        matches!(self, Form::Order)
    }
}

/// The words of the line after those that it begins with, if it begins so.
fn words_behind<'a>(begun: &[u8], text: &'a [u8]) -> Option<&'a [u8]>
    ensures { option_map (λ w. w.now) result ≡ words_behind begun.now text.now }
{
    match text.strip_prefix(begun)? {
        [] => Some(&text[text.len()..]),
        [b' ', words @ ..] => Some(words),
        _ => None,
    }
}

/// The first of the forms that the line has, and its words; else all of the line.
fn first_read<'a>(forms: &[Form], text: &'a [u8]) -> (Form, &'a [u8])
    ensures { (result.0, result.1.now) ≡ first_read forms.now text.now }
{
    match forms {
        [] => (Form::Other, text),
        [form, more @ ..] => match words_behind(form.start(), text) {
            Some(words) => (*form, words),
            None => first_read(more, text),
        },
    }
}

/// The form of the line, and its words.
pub(crate) fn read_line(text: &[u8]) -> (Form, &[u8])
    ensures { (result.0, result.1.now) ≡ read_line text.now }
{
    first_read(&FORMS, text)
}
