//! The index where a value gives place to another: it changes in place.
ghost use Rattle.std.specs.Prelude.{◌≡◌, ℕ, ◌<◌, IfOk, OnErr, OnOk, length};
ghost use Rattle.keep_index_store.specs.Below.{totals_in};
ghost use Rattle.keep_index_store.specs.Tree.{node_infos};
ghost use Rattle.keep_meaning.specs.Meaning.{body_fact};
ghost use Rattle.keep_meaning.specs.Nodes.{fact_kind};
ghost use Rattle.keep_meaning.specs.OtherValues.{nodes_in_value};
ghost use Rattle.keep_path.specs.NodesBelow.{AreBelow, with_value};
ghost use Rattle.keep_rules.specs.ValueTexts.{IsTextOfValue};
ghost use Rattle.keep_syntax.specs.Tree.{Value};

use super::{Index, NodeId};
use crate::read::value_tree;
use crate::value::ValueText;
use keep_index_store::{NotInPlace, Totals, Tree};
use keep_syntax::{Limits, STANDARD_DEPTH, ValueSyntax};
use keep_token::Profile;
use keep_types::{Kind, kind_of};
use std::alloc::Global;

/// The nodes of a value and its kind, read of its own text. `NotInPlace` where memory was refused, and where the text
/// is no value of the profile that obeys the rules of definition.
fn nodes_in_text(alloc: Global, text: &str, profile: Profile) -> Result<(Tree, Kind), NotInPlace>
    ensures nodes { IfOk result
        (λ read. (v : Value) → IsTextOfValue text.now v → node_infos read.0 ≡ nodes_in_value v) }
    ensures kind { IfOk result
        (λ read. (v : Value) → IsTextOfValue text.now v → read.1 ≡ fact_kind (body_fact v.body)) }
{
    let limits = Limits {
        depth: STANDARD_DEPTH,
        profile,
    };
    let Ok(syntax) = ValueSyntax::read(alloc, text, limits) else {
        return Err(NotInPlace);
    };
    let kind = kind_of(syntax.value(0).leaf);
    let Ok(tree) = value_tree(alloc, text, &syntax) else {
        return Err(NotInPlace);
    };
    Ok((tree, kind))
}

/// The nodes of a value, read of its own text. `NotInPlace` where memory was refused.
pub(crate) fn nodes_of_value(alloc: Global, value: &ValueText) -> Result<Tree, NotInPlace>
    ensures { IfOk result
        (λ tree. (v : Value) → IsTextOfValue value.now v → node_infos tree ≡ nodes_in_value v) }
{
    let (tree, _) = nodes_in_text(alloc, value.as_str(), value.profile())?;
    Ok(tree)
}

impl Index {
    /// Another value comes in the place of that of a node, which has a key: the nodes in the old one go, and those in
    /// the new one come. The document had `old` values and key parts in all, and now has `new`. It takes the memory of
    /// the new value's nodes, and reads the value's text once more.
    ///
    /// # Errors
    ///
    /// `NotInPlace` where the node is an item or an element, or is neither that of a value nor that of a key from which
    /// a keyval continues by dots, where a number would not fit where it is stored, and where memory was refused; then
    /// nothing has changed, and the index has to be built anew.
    pub fn set_value(
        &mut self,
        node: NodeId,
        value: &ValueText,
        old: Totals,
        new: Totals,
    ) -> Result<(), NotInPlace>
        requires { node.0 < length self.old.paths }
        ensures set { OnOk result ((v : Value) → IsTextOfValue value.now v → (gone : ℕ)
            → AreBelow self.old.paths node.0 gone → self.new ≡ with_value self.old node.0 gone (totals_in old)
            (totals_in new) (nodes_in_value v) (fact_kind (body_fact v.body))) }
        ensures refused { OnErr result (self.new ≡ self.old) }
    {
        self.set_text(node, value.as_str(), value.profile(), old, new)
    }

    /// The same as `set_value`, by the text of the value and the profile in which it is read here. Nothing is known of
    /// the nodes where it is no text of a value.
    ///
    /// # Errors
    ///
    /// Those of `set_value`, and `NotInPlace` where the text is no value of the profile that obeys the rules of
    /// definition.
    pub fn set_text(
        &mut self,
        node: NodeId,
        text: &str,
        profile: Profile,
        old: Totals,
        new: Totals,
    ) -> Result<(), NotInPlace>
        requires { node.0 < length self.old.paths }
        ensures set { OnOk result ((v : Value) → IsTextOfValue text.now v → (gone : ℕ)
            → AreBelow self.old.paths node.0 gone → self.new ≡ with_value self.old node.0 gone (totals_in old)
            (totals_in new) (nodes_in_value v) (fact_kind (body_fact v.body))) }
        ensures refused { OnErr result (self.new ≡ self.old) }
    {
        let (inside, kind) = nodes_in_text(self.nodes.allocator(), text, profile)?;
        self.nodes.replace_below(node.0, inside, kind, old, new)
    }
}
