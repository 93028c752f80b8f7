//! The texts of hints that are long or have several uses, by name; others are where their cause is found. In a text `$` and the
//! sign after it stand for a value, which `message::Found` has.

/// A text, or its name.
pub type Text = &'static str;

/// Each line is a name, or some names in the group that the last `/` ends, `: ` and a text, or its name.
const TEXTS: &str = r#"
kind: $x
unwritten: a write failed, and what was to be printed was not written whole
unread: standard input is longer than 67108864 bytes, or could not be read, as a folder cannot
assembling-fault: docs/FORMATS.md says what that means, under `Faults of assembling`
object-refusal: docs/FORMATS.md says what that means, under `Refusals of an object`
other-refusal: docs/FORMATS.md says what that means, under `Refusals`
too-many-slots: one of its loops, or of its places where two words meet, finds none of the 512 slots of a frame open: move some nodes into a block of their own, and call that
too-far: it has more than 32768 instructions, so move some nodes into a block of their own, and call that; or the object has more than 65536 different literals
orders-differ: reports differ only where a second store comes to a cell, frames or credits are wanted, steps or memory run out, or readers wait at the end: compare the lines `deferred` and `end` of both
no-command: a command comes first; the most used are `ets run FILE`, where FILE has a program or a graph, `ets mean`, `ets trace` and `ets profile`; `ets help` has all
commands: the commands are lower, run, exec, mean, trace, profile, orders, check, compile, dis, asm, upgrade, dot and help
help: `ets help` takes at most one command: lower, run, exec, mean, trace, profile, orders, check, compile, dis, asm, upgrade, dot or help
file: a command comes before the name of a file, as in `ets $1 $2`
negative-input: `$2` is read as an option: an input below 0 comes after `--`, as in `ets exec -- $2`
negative-given: `$2` is read as an option: an input below 0 comes after `--`, as in `ets $1 FILE -- $2`
one-word-more: `ets $1` takes the name of one file and no inputs, and `$2` is a word more
no-options: `ets $1` has no options; it reads a file, `ets $1 FILE`, or standard input, `ets $1 < FILE`
no-input-line: line $a of the inputs is empty
input-line: line $a of the inputs is `$p`
input-kinds: inputs are integers, one a line, and no empty lines
return-in-inputs: lines end with CR LF here, and with LF alone in inputs: `tr -d '\r'` takes the CRs out
graph-inputs: block $1 has $b input$B, and the lines after the graph have $a integer$A
file-inputs: block $1 has $b input$B, and none follows the name of the file, as 7 does in `ets run FILE 7`; in the file there are $a
given-inputs: block $1 has $b input$B, and the command line has $a integer$A
object-inputs: code block $c, which is run, has $b input$B, and the command line has $a integer$A
many-inputs: the command line has more than 16 inputs, and no block takes more than 16
elements: --elements is 1 to 16, and not $a
frames: --frames is 1 to 1024, and not $a
mode: --mode is `one`, `rounds` or `free`
take: --take is `oldest` or `depth`
no-depth: the runs of `ets orders` take any token, so --take is `oldest` there
enough-elements: $a frames of all elements together suffice in every order, and $b element$B cannot have so many: an element has 1024 at most, so --elements $c has enough
enough-nowhere: $a frames of all elements together suffice in every order, and no machine has more than 16384: fewer may do, so try --frames 1024
enough-unknown: within --steps $a activities the meaning does not come to rest with no reader waiting, so no number of frames is known to suffice: `ets mean` says where it is then
run-memory: memory was refused: fewer --elements and --frames take less of it
event-memory: memory was refused: fewer --elements, --frames and --steps take less of it
steps-end: an element made its $a step$A, and had more to do: raise --steps ($b at most), if the run ends at all
picks-end: an order has $b picks at most, and more was to be done after them: smaller inputs take fewer, and fewer --elements waste fewer on elements without a token
steps-or-picks-end: an element made its $a step$A, or the $b picks of an order ran out: raise --steps ($b at most); else smaller inputs, or fewer --elements, take fewer picks
wave-end: --steps $a does not allow all activities of the next wave: raise it ($b at most), if the graph ends at all
activities-end: --steps $a allows no further activity, and there is one: raise it, if the graph ends at all
no-frame: $a request$A for a frame at the end, where no frame was free: raise --frames (1024 at most), or --elements (16 at most)$y
no-frame-of-enough: $a request$A for a frame at the end, where no frame was free: raise --frames (1024 at most), or --elements (16 at most)$y; $e frames of all elements together suffice in every order, if --steps does
no-frame-of-enough-bounds: $a request$A for a frame at the end, where no frame was free: raise --frames (1024 at most), or --elements (16 at most)$y; $e frames of all elements together suffice in every order where each loop's bound is at least $f, if --steps does
no-frame-in-row: $a request$A for a frame at its end, where none of its $d frame$D was free: raise --frames (1024 at most), or leave $c out of --elements$y
failed-row: the run on $c element$C does not end at rest, so its rounds are not those of all the work
fault-zero: a division by zero gives a fault, and each value that is computed from a fault is that fault
fault-range: an index outside its array gives a fault, and each value that is computed from a fault is that fault
fault-range-of: the index is outside array $2, which has $c cell$C: that gives a fault, and each value that is computed from a fault is that fault
fault-untold: the graph is of version 1, whose faults do not say where they are made: with `etsgraph 2` in its first line they do
fault-untold-code: the object does not say where faults are made
readers: $a reader$A at the end of cells that no store filled: `ets trace` shows them, each with a `read` that is `deferred` and no `write`
readers-of-cells: $a reader$A at the end of cells that no store filled: $x
readers-of-object: $a reader$A at the end of cells that no store filled: the report has a line `cell` for each cell that one did
no-credit: $b request$B for a loop's credit at the end, where no iteration could end: raise the loop's bound k, the number in its line `loop F k ..`
no-credit-of-enough: $b request$B for a loop's credit at the end, and none for a frame: there are as many as suffice in every order, $e; the bound of $x, k in `loop F k ..`, is too small for the order in which cells are stored and read, and bounds of at least $f, the iterations of all loops together, suffice in every order, if --steps does
no-credit-of-enough-own: $b request$B for a loop's credit at the end, and none for a frame: there are as many as suffice in every order, $e; the bound of $x, k in `loop F k ..`, is too small for the order in which cells are stored and read, and a bound of at least the loop's own iterations suffices in every order, if --steps does
no-credit-of-code: $b request$B for a loop's credit at the end, where no iteration could end: raise the bound k of `open`, `take`, `give` and `drain`, unless the code gives no credit back
no-frame-no-credit: $a request$A for a frame and $b request$B for a loop's credit at the end: raise --frames (1024 at most), or --elements (16 at most)$y, and the bound k of the loops
clash: a second store came to cell $a of array $b: a cell takes one store in a run
named-clash: a second store came to cell $a of array $p: a cell takes one store in a run
named-clash-of: a second store came to cell $a of array $p, and the stores of the array are in lines $x: a cell takes one store in a run
stuck-object: the object is at fault, as no object of `ets compile` is, and the report does not name the token: `ets dis` lists the code, and docs/DEFINITIONS.md has the rules, in part 4
stuck: compiled code never makes such a token: this is a fault of ets
large-page: a page of more than 1000000 events is slow to open: --last K makes one of the last K events
digits: `$p` is no number: that is digits alone
no-literal: `$p` is no literal: that is digits, and `-` before them if it is below 0
large-literal: `$p` is not within 64 bits, from -9223372036854775808 to 9223372036854775807
no-source: `$p` is no source: that is `N.P`, for port P of node N
byte-order-mark: the text begins with a byte order mark, which no graph has
no-line-feed: this last line has no line feed at its end
return-in-graph: lines end with CR LF here, and with LF alone in a graph: `tr -d '\r'` takes the CRs out
spacing: one space separates two fields, and a line neither begins nor ends with a space: see column $a
form: the form is `$1`: this line has $a field$A after `$p`
sources: $p wants $b source$B, this line has $a
strict-call: only a graph with the header `etsgraph 2` has `scall`
unknown-kind: `$p` is no kind of node: lit, cond, enter, merge, fetch, store, call, loop, neg, not, add, sub, ..
no-block-yet: `$p` begins no line here: `array`, `block` and `main` do, and nodes are inside a block
no-block-open: `$p` begins no line here: `block` and `main` do, and nodes are inside a block
late-array: `array` lines come before the first block
unended-nodes: the text ends inside block $q, before its `out` line and `end`
unended-block: the text ends inside block $q, before the line `end`
inputs-begin: the inputs begin here, and `ets $2` reads the graph alone: `sed '/^main /q' FILE | ets $2`
main-missing: the text ends without a line `main NAME`, which names the block to be run
at-code-block: code block $a is that of block $1
at-iterations: code block $a is that of the iterations of block $1
same-array: an array before it is called $p, too
same-block: a block before it is called $p, too
outputs-wanted: block $1 has $d output$D, this line has $c source$C
inputs-wanted: block $2 has $d input$D, this line has $c source$C
looped: a block that is looped has one output more than inputs: $2 has $c input$C and $d output$D
late-source: `$c.$d` is of no earlier node: a source names a node whose number is lower than this one's, $a
late-result: `$c.$d` is of no node: block $1 has $a node$A, from 0 on
no-port: node $c has $e output port$E, and no port $d
enter-in-root: an `enter` is in an arm, `K+` or `K-`, and not in the root
no-cond: node $c is no `cond` before this line, so it has no arms
merge-elsewhere: a merge lies where its `cond` lies: node $c lies in $x, this line in $y
crossing-source: `$c.$d` lies in $x, and a source here lies in $y: `enter` leads into an arm, `merge` out of it
result-in-arm: `$c.$d` lies in $x, and a result lies in the root: `merge` leads out of an arm
return-in-listing: lines end with CR LF here, and with LF alone in a listing: `tr -d '\r'` takes the CRs out
line-order: after the first line come the blocks, each with its instructions, then the arrays, then the literals
line-number: `$p` is where $a is expected: blocks, arrays, literals, and the instructions of a block, are numbered from 0
listing-unended: the text ends before its first block: after the line `ets VERSION main BLOCK` comes `block 0 inputs I outputs O slots S`
operation: `$p` is the name of no operation: docs/FORMATS.md has all, under `Object file`
slot-wanted: $p has a slot, a number below the slots of its block, and `$q` is none
slot-unwanted: $p has no slot with this operand, so `-` is wanted, and not `$q`
no-destination: `$p` is no destination: that is `-`, or `+N` with `l` or `r` after it, as in `+1l`
origin: `$p` is no origin that is allowed here: that is `@B.N`, for node N, below 1024, of graph block B, below 256, in version 2, after div, rem, fetch and store
literal-order: literals ascend, and this one is not above the one before
array-operand: the operand of $p is `aN`, an array that there is, and not `$q`
entry-operand: the operand of $p is `bN.E`, a block that there is and an entry of it, from 0 to its inputs, and not `$q`
offset-operand: the operand of $p is `o0` to `o255`, and not `$q`
bound-operand: the operand of $p is `k2` to `k64`, and not `$q`
side-operand: the operand of $p is `-`, `r#V` or `l#V`, with a literal V of 64 bits, and not `$q`
no-operand: the operand of $p is `-`, and not `$q`
at-instruction: instruction $b of code block $c, at byte $a of the object
range: $1: $d, where $e to $f is allowed
numbered: $1 $d, where the object has $e $1$E, from 0 on
object-header: the object has $d byte$D, and its header and the table of its blocks take $e at least
object-length: the object has $d byte$D, and its tables want $e
no-opcode: opcode $d with flag $e, where no such instruction is
operand: an operand $d, which opcode $e does not have
no-slot: slot $d in a block that has $e slot$E, from 0 on
slotless: slot $d, where opcode $e has none, so 0 is wanted
distance: a destination without a distance, but with a right port
past-end: a destination $d further on, past the end of its block
right-port: a right port of the instruction $d further on, which takes one token
no-target: an operand $d, which names no block, entry or offset that is there
item: a program has items: `array NAME[CELLS];` and `fn NAME(PARAMETERS) { BODY }`, with `-> N` before the body where there are N results
loop: a loop is written `loop 4 (i = 0, s = 0) while i < n { BODY }`, or `loop 4 (i = 0, s = 0) { BODY } while (i < n)`
else: each `if` has an `else`: `if p { a } else { b }`, or `if p { a } else if q { b } else { c }`
step: after `$2` comes a `let` or an expression, which begins with a number, a name, `(`, `-`, `~`, `if`, `loop` or `strict`
expression: after `$2` an expression begins: with a number, a name, `(`, `-`, `~`, `if`, `loop` or `strict`
inputs-line: `inputs` ends the program where it is alone in its line, with no space before or after it
equals: `=` is for `let x = ..` and for the head of a loop; a comparison is `==`, and a cell is filled by `A[i] := v`
before-let: before `let` a `;` is missing
one-value: one value has to be here: an operand, an index, what is stored, a test or a loop's first value
one-result: `$1` has $d parameter$D, and this call gives more or fewer values
call-results: `$1` has $d parameter$D and $e result$E: the call gives more or fewer values, or is where one value has to be
bad-name: `$p` is no name: one has at most 24 letters, digits and `_`, begins with a letter, has no `__`, and is no reserved word
same-name: `$p` is the name of an array or a function, or is already in this list: take another name
value-unknown: no value is called `$p` here: a `let` comes before, in this block or around it; a loop's name is known only in the loop
reads/lower: program
reads/asm: listing
reads/exec, dis, upgrade, dot --code: object
other/empty/graph, listing: standard input is empty: give it a file by `<`, as in `ets $1 < FILE`
other/empty/object: standard input is empty: give it an object by `<`, as in `ets $1 < FILE`
other/empty/program: standard input is empty: give it a file by `<`, as in `ets $1 < FILE | ets run`
other/program/graph: standard input looks like a program, which `ets lower` makes a graph of: `ets lower < FILE | ets $1`
other/graph/exec: standard input is a graph: `ets run` runs it, and `ets compile` makes an object of it
other/graph/dot --code: standard input is a graph: `ets dot` without --code draws it
other/graph/program: standard input is a graph, which needs no lowering: `ets run < FILE` runs it
other/graph/object, listing: standard input is a graph: `ets compile` makes an object of it
other/refusal/graph, object, program, listing: the command before this one refused its input, and says why: `$p`
other/object/dot: standard input is an object, and `ets dot` reads a graph; `ets dot --code` draws an object
other/object/check, compile: standard input is an object, and `ets $1` reads a graph; `ets dis` lists an object
other/object/graph: standard input is an object, and `ets $1` reads a graph; `ets exec` runs an object
other/object/program: standard input is an object, and `ets $1` reads a program; `ets exec` runs an object
other/object/listing: standard input is an object: `ets dis` makes a listing of it
other/listing/graph: standard input is a listing, and `ets $1` reads a graph; `ets asm` makes an object of a listing
other/listing/program: standard input is a listing, and `ets $1` reads a program; `ets asm` makes an object of a listing
other/listing/object: standard input is a listing: `ets asm` makes an object of it
options/run: the options of `ets $1` are --elements N (1 to 16), --frames N (1 to 1024) or enough, --steps N (at most 4294967296), --mode one, rounds or free, --turn N (1 to 65536), --take oldest or depth, and with a file --cells A,B or none, --grid A=N, --format text or json, and --quiet, each at most once
options/exec: the options of `ets $1` are --elements N (1 to 16), --frames N (1 to 1024), --steps N (at most 4294967296), --mode one, rounds or free, --turn N (1 to 65536), and --take oldest or depth, each at most once; all other words are a file and inputs
options/trace: the options of `ets $1` are --last N, --format text, chrome, html, or of a file json, --elements N (1 to 16), --frames N (1 to 1024), --steps N (at most 4294967296), --mode one, rounds or free, --turn N (1 to 65536), --take oldest or depth, and with a file --quiet, each at most once
options/profile: the options of `ets $1` are --elements N,N,.. (each 1 to 16), --frames N (1 to 1024), --steps N (at most 4294967296), --take oldest or depth, --svg, and with a file --format text or json, and --quiet, each at most once
options/orders: the options of `ets $1` are --count N, --seed N, --elements N (1 to 16), --frames N (1 to 1024), --steps N (at most 4294967296), --take oldest, and with a file --cells A,B or none, --grid A=N, --format text or json, and --quiet, each at most once
options/mean: the options of `ets $1` are --steps N, and with a file --cells A,B or none, --grid A=N, --format text or json, and --quiet, each at most once
options/dis: the options of `ets $1` are --literals, and with a file --map and --quiet, each at most once
options/dot: the options of `ets $1` are --code, and with a file --quiet, each at most once
options/lower: the options of `ets $1` are --map, and with a file --format text or json, and --quiet, each at most once
options/compile: the options of `ets $1` are --map and --quiet, with a file, each at most once; it reads a file, `ets $1 FILE`, or standard input, `ets $1 < FILE`
options/check: the options of `ets $1` are --format text or json and --quiet, with a file, each at most once; it reads a file, `ets $1 FILE`, or standard input, `ets $1 < FILE`
outer/array: array NAME LEN
outer/block: block NAME INPUTS OUTPUTS
outer/main: main NAME
node/lit: lit V S
node/cond: cond S
node/enter: enter S
node/merge: merge K S T
node/fetch: fetch A S
node/store: store A S T
node/call: call F S..
node/scall: scall F S..
node/loop: loop F k S..
listing/ets: ets VERSION main BLOCK
listing/block: block NUMBER inputs I outputs O slots S
listing/array: array NUMBER CELLS
listing/literal: literal NUMBER V
listing/instruction: NUMBER NAME SLOT FIRST SECOND OPERAND
next/fn, array: the next item begins
head/etsgraph: other/graph/
head/ets: other/listing/
head/fn, array: other/program/
alone/--, --literals, --code, --svg, --map, --quiet: no value follows
item/}: no block is open that this `}` could close
item/;: no `;` comes after the body of a function
name/array, fn, let, if, else, loop, while, strict: `$1` is a word of the language, and no name
operand/=: equals
operand/while: loop
operand/else: else
after/;: semicolon/
after/{: brace/
after/,: comma/
semicolon/}: a block ends with its values, and no `;` comes after them
brace/}: a block is not empty: it ends with its values
comma/}, ), ], ;: after `,` comes another value: no list ends with a `,`
bracket/): a call has at least one argument, as a function has at least one parameter
doubled/&, |: `&` and `|` are single signs that work on bits, so that `1 & 2` is 0: two tests are joined as `(a != 0) & (b < c)`
operator/=: equals
operator/==, !=, <, <=, >, >=: comparisons do not chain: `a < b < c` is written `(a < b) & (b < c)`
operator/(: only the name of a function comes before the bracket of a call
operator/[: only the name of an array comes before `[`
values/let: after `=` there are more or fewer values than `let` has names; `_` drops one
values/{: the function's body gives another number of values than its head says: N after `-> N`, and one where that is left out
values/if: the arms of this `if` give different numbers of values, or it is where one value has to be, and gives more
values/loop: a turn of this loop gives more or fewer values than the loop has names, or it is where one value has to be, and has more names
"#;

/// The text of this name in this group, if there is one.
pub fn found(group: &str, name: &str) -> Option<Text> {
    for line in TEXTS.split('\n') {
        let (names, text) = line.split_once(": ").unwrap_or(("", line));
        let Some(names) = names.strip_prefix(group) else {
            continue;
        };
        for own in names.split(", ") {
            if own == name {
                return Some(text);
            }
        }
    }
    None
}
