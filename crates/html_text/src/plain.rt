//! No text in a page is escaped.

ghost use Rattle.html_text.specs.Plain.{WordsAreWhole, PartsAreWhole, StringsAreQuotable, DataIsInert, ListingsArePlain, GraphsArePlain};

/// No text in a page needs an escape. The strings of the data are JSON strings as they are; a part of one has no semicolon, and a word in it no
/// colon either, so that each ends where the next begins. The data has none of `<`, `>`, `&`, `'`, `` ` `` and `\`, so that it ends
/// no script; a listing and the text of a graph have none of these and no quotation mark.
pub fn texts_are_plain()
    ensures words { WordsAreWhole }
    ensures parts { PartsAreWhole }
    ensures strings { StringsAreQuotable }
    ensures data { DataIsInert }
    ensures listings { ListingsArePlain }
    ensures graphs { GraphsArePlain }
{}
