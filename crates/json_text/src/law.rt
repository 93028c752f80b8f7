//! Strings are whole.

ghost use Rattle.json_text.specs.Strings.{StringsAreWhole};

/// What is written of a text between two quotation marks is characters of a JSON string, whatever the bytes of the text are: so none of
/// them ends the string.
pub fn strings_are_whole()
    ensures { StringsAreWhole }
{}
