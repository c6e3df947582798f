//! The numbers of a line that is put in: at the end of a body, or after another line.
ghost use Rattle.std.specs.Prelude.{◌≡◌, ◌+◌, ◌≤◌, ◌<◌, ℕ, List, Some, length, drop};
ghost use Rattle.keep_index_store.specs.Renumbering.{numbers_of};
ghost use Rattle.keep_path.specs.Path.{Part};
ghost use Rattle.keep_syntax.specs.Contract.{parts_of, statements_of, values_of};
ghost use Rattle.keep_syntax.specs.Tree as tree;
ghost use Rattle.keep_edit_spec.specs.Insertion.{body_count, next_statement};
ghost use Rattle.keep_edit_plan.specs.Inserting.{IsKeyvalSpot};
ghost use Rattle.keep_edit_plan.specs.LineNumbers.{AreNumbersAfter, AreNumbersPast, IsOnLine, next_key, next_value};
ghost use Rattle.keep_edit_plan.specs.Reading.{IsTextOfTree};
ghost use Rattle.keep_edit_plan.specs.declared.insert.Spot.TheVariants.{AfterBody};

use crate::document::DocumentRef;
use keep_rules::LineNumbers;
use keep_syntax::{Owner, StatementKind, Syntax};

impl<'a> DocumentRef<'a> {
    /// The numbers of a keyval that is put in after the body of the header with this statement number, or of the root.
    /// It takes no memory.
    pub(crate) fn line_numbers(&self, header: Option<usize>) -> LineNumbers
        requires { (s : tree.Document) × IsTextOfTree self.now s
            × ((a : List Part) × (from : ℕ) × IsKeyvalSpot a s from (AfterBody header)) }
        ensures { (s : tree.Document) → IsTextOfTree self.now s → (a : List Part) (from : ℕ)
            → IsKeyvalSpot a s from (AfterBody header) → AreNumbersAfter a s result }
    {
        numbers_from(self.syntax, next_statement(self.syntax, header))
    }

    /// The numbers of a keyval that is put in after the line of the keyval with this value number. It takes no memory.
    pub(crate) fn numbers_past(&self, keyval: usize) -> LineNumbers
        requires { (s : tree.Document) × IsTextOfTree self.now s × ((line : ℕ) × IsOnLine s keyval line) }
        ensures { (s : tree.Document) → IsTextOfTree self.now s → (line : ℕ) → IsOnLine s keyval line
            → AreNumbersPast line s result }
    {
        match self.syntax.value(keyval).owner {
            Owner::Line(statement) => numbers_from(self.syntax, statement + 1),
            _ => unreachable!(),
        }
    }
}

/// The numbers of a keyval that is put in as this statement.
fn numbers_from(syntax: &Syntax, statement: usize) -> LineNumbers
    ensures statement { result.statement ≡ statement }
    ensures value { result.value ≡ next_value (length (values_of syntax.now))
        (drop result.statement (statements_of syntax.now)) }
    ensures key { result.key ≡ next_key (length (parts_of syntax.now))
        (drop result.statement (statements_of syntax.now)) }
{
    LineNumbers {
        statement,
        value: next_value(syntax, statement),
        key: next_key(syntax, statement),
    }
}

/// The number of the statement after the body of the header with this statement number, or of the root.
fn next_statement(syntax: &Syntax, header: Option<usize>) -> usize
    requires { (h : ℕ) → header ≡ Some h → h < length (statements_of syntax.now) }
    ensures { result ≡ next_statement header (statements_of syntax.now) }
{
    match header {
        Some(number) => past_keyvals(syntax, number + 1),
        None => past_keyvals(syntax, 0),
    }
}

/// The number of the first statement from number `first` on that is no keyval, or that would come after all.
fn past_keyvals(syntax: &Syntax, first: usize) -> usize
    ensures { result ≡ first + body_count (drop first (statements_of syntax.now)) }
{
    let mut end = first;
    for number in first..syntax.statement_count() {
        match syntax.statement(number).kind {
            StatementKind::KeyVal => end = number + 1,
            _ => return end,
        }
    }
    end
}

/// The number of the first key part that the statements from number `statement` on have, or that would come after all.
fn next_key(syntax: &Syntax, statement: usize) -> usize
    ensures { result ≡ next_key (length (parts_of syntax.now)) (drop statement (statements_of syntax.now)) }
{
    if statement < syntax.statement_count() {
        syntax.statement(statement).first_key
    } else {
        syntax.key_count()
    }
}

/// The number of the first value that the statements from number `first` on have, or that would come after all.
fn next_value(syntax: &Syntax, first: usize) -> usize
    ensures { result ≡ next_value (length (values_of syntax.now)) (drop first (statements_of syntax.now)) }
{
    for number in first..syntax.statement_count() {
        if let Some(value) = syntax.statement(number).value {
            return value;
        }
    }
    syntax.value_count()
}
