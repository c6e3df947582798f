//! Laws of leaves. Each function does nothing: its contract is the law, proved for all texts.
ghost use Rattle.keep_token.specs.Laws as laws;

/// No text is of two kinds of scalars, so a scan finds the kind of the text, and chooses nothing.
pub fn scalars_share_no_text()
    ensures { laws.ScalarsShareNoText }
{}

/// What is a leaf in Strict is the same leaf in Wide.
pub fn wide_has_strict()
    ensures { laws.WideHasStrict }
{}

/// A string and a key part mean one text: decoding what was encoded gives the text back.
pub fn means_one_text()
    ensures { laws.MeansOneText }
{}
