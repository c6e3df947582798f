//! The syntax of a document after an edit. It is renewed here, by the lines of the new text that replace those which
//! the edit touches: nothing else of that text is handed over, so nothing else of it is scanned.
ghost use Rattle.std.specs.Prelude.{IfOk, OnErr, OnOk};
ghost use Rattle.keep_path.specs.NodeInfos.{NodeInfos};
ghost use Rattle.keep_edit_plan.specs.declared.text_edit.TextEdit.{TextEdit};
ghost use Rattle.keep_syntax.specs.Undoing.{IsSame, Undoes};
ghost use Rattle.keep_edit.specs.Places.{IsScanned, after};
ghost use Rattle.keep_edit.specs.Reading.{IsSyntaxIn, ProfiledText, text_in};

use keep_syntax::{Limits, Replaced, STANDARD_DEPTH, Span, Syntax};
use keep_token::Profile;
use std::alloc::AllocError;

/// Puts lines in the place of `whole`, which are the lines that an edit touches. If memory runs out, the same is stored
/// as before.
pub(crate) fn put_lines(
    syntax: &mut Syntax,
    whole: Span,
    lines: &str,
    profile: Profile,
) -> Result<Replaced, AllocError>
    requires { (old : ProfiledText) × (made : TextEdit) × (index : NodeInfos)
        × IsScanned old made syntax.old index whole (text_in profile lines.now) }
    ensures renewed { (old : ProfiledText) (made : TextEdit) (index : NodeInfos)
        → IsScanned old made syntax.old index whole (text_in profile lines.now)
        → OnOk result (IsSyntaxIn (after old made) syntax.new) }
    ensures undo { IfOk result (λ replaced. Undoes replaced syntax.old syntax.new) }
    ensures refused { OnErr result (IsSame syntax.new syntax.old) }
{
    let limits = Limits {
        depth: STANDARD_DEPTH,
        profile,
    };
    syntax.replace(whole, lines, limits)
}
