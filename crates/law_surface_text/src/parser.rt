//! The parser of programs with derived forms as an automaton: a stack of symbols, which is all that it knows, and words that are
//! appended. It reads exactly the programs that fit the grammar. Each symbol knows how many expressions are open around
//! it, so what a symbol does with a token depends on the two of them alone.

ghost use Rattle.law_surface_text.specs.Law.{Sound, Complete, Once, FirstFault, WordsDetermine};

/// The automaton reads the tokens of a text exactly if they are the tokens of a program that fits the grammar and is at most 200 deep;
/// then this is the only such program, and the words that are appended are its words. Otherwise the fault is at the first token at which no
/// such program goes on, or at the end, and its kind says why. Programs with the same words are the same.
pub fn automaton_reads_the_grammar()
    ensures sound { Sound }
    ensures complete { Complete }
    ensures once { Once }
    ensures first_fault { FirstFault }
    ensures words { WordsDetermine }
{}
