//! Laws of the edits, each the contract of a function that does nothing.
ghost use Rattle.keep_edit_spec.specs.AddedItems as items;
ghost use Rattle.keep_edit_spec.specs.AddedLines as added;
ghost use Rattle.keep_edit_spec.specs.AppendedHeaders as appended;
ghost use Rattle.keep_edit_spec.specs.AppendedStatements as headers;
ghost use Rattle.keep_edit_spec.specs.BroughtHeaders as brought;
ghost use Rattle.keep_edit_spec.specs.DottedLines as dotted;
ghost use Rattle.keep_edit_spec.specs.ElementRuns as elements;
ghost use Rattle.keep_edit_spec.specs.EndEdits as ends;
ghost use Rattle.keep_edit_spec.specs.EntryChanges as parts;
ghost use Rattle.keep_edit_spec.specs.EntryEdits as entries;
ghost use Rattle.keep_edit_spec.specs.FilledTables as filled;
ghost use Rattle.keep_edit_spec.specs.HeadersBelow as below;
ghost use Rattle.keep_edit_spec.specs.InsertLists as inserts;
ghost use Rattle.keep_edit_spec.specs.KeyvalLines as keyvals;
ghost use Rattle.keep_edit_spec.specs.Laws as spec;
ghost use Rattle.keep_edit_spec.specs.LineKeys as line_keys;
ghost use Rattle.keep_edit_spec.specs.LinesAhead as ahead;
ghost use Rattle.keep_edit_spec.specs.LinesInPlace as in_place;
ghost use Rattle.keep_edit_spec.specs.MoreKeys as more_keys;
ghost use Rattle.keep_edit_spec.specs.RemovedHeaders as taken;
ghost use Rattle.keep_edit_spec.specs.RemovedLines as removed;
ghost use Rattle.keep_edit_spec.specs.RenamedKeys as keys;
ghost use Rattle.keep_edit_spec.specs.RenameLists as renames;
ghost use Rattle.keep_edit_spec.specs.RunLists as lists;
ghost use Rattle.keep_edit_spec.specs.Runs as runs;
ghost use Rattle.keep_edit_spec.specs.SetValues as values;
ghost use Rattle.keep_edit_spec.specs.TouchedLines as touched;
ghost use Rattle.keep_edit_spec.specs.UndoneInserts as undone;

/// A `set` that is not refused changes the document as it is stated: in its text, its tree and its size.
pub fn set_is_lawful()
    ensures { spec.SetIsLawful }
{}

/// An `append_table` that is not refused changes the document as it is stated, for keys in UTF-8.
pub fn append_table_is_lawful()
    ensures { spec.AppendTableIsLawful }
{}

/// An `append_element` that is not refused changes the document as it is stated, for keys in UTF-8.
pub fn append_element_is_lawful()
    ensures { spec.AppendElementIsLawful }
{}

/// An `insert` that is not refused changes the document as it is stated, for keys in UTF-8.
pub fn insert_is_lawful()
    ensures { spec.InsertIsLawful }
{}

/// A `remove` that is not refused changes the document as it is stated: in its text, its tree and its size.
pub fn remove_is_lawful()
    ensures { spec.RemoveIsLawful }
{}

/// A `rename` that is not refused changes the document as it is stated, for a key in UTF-8.
pub fn rename_is_lawful()
    ensures { spec.RenameIsLawful }
{}

/// `get` gives the text of the value at a path, and a text only where there is a value.
pub fn get_is_right()
    ensures { spec.GetIsRight }
{}

/// An edit replaces its place in the text, and no byte elsewhere.
pub fn change_is_put()
    ensures { spec.ChangeIsPut }
{}

/// By an edit the text grows by no more than what the edit gives, and twelve bytes.
pub fn growth_is_bounded()
    ensures { spec.GrowthIsBounded }
{}

/// Twelve is the least such number: by some edit the text grows by as much.
pub fn growth_bound_is_reached()
    ensures { spec.GrowthReachesBound }
{}

/// The touched lines of an edit, in the new text, are lines of their own, and all others stay as they are. So an edit
/// needs to scan only those.
pub fn touched_lines_are_lines()
    ensures { touched.TouchedLinesAreLines }
{}

/// An `insert` of one key, with nothing inside its value, at the end of a body gives a document with one line more.
pub fn insert_adds_line()
    ensures { keyvals.InsertAddsLine }
{}

/// A `remove` of such a line gives a document of which the old one has one line more, if the old one obeys the rules.
pub fn remove_takes_line()
    ensures { keyvals.RemoveTakesLine }
{}

/// An `insert` of several keys at the end of a body gives a document with one line more, of these keys. The old
/// document says nothing of the first key's path, or of a path below it.
pub fn insert_adds_keys()
    ensures { keyvals.InsertAddsKeys }
{}

/// A `remove` of such a line gives a document of which the old one has one line more, and which says nothing of the
/// first key's path, if the old one obeys the rules and no other key part in it names that path.
pub fn remove_takes_keys()
    ensures { keyvals.RemoveTakesKeys }
{}

/// An `insert` of one new key or of several into a table that dotted keys make gives a document with one line more,
/// after the last one that leads through that table. The keys of the line first pass the tables from the line's body to
/// that one; then come the new ones. The old document says nothing of the first new key's path, or of a path below it.
pub fn insert_adds_dots()
    ensures { keyvals.InsertAddsDots }
{}

/// A `remove` of a line with a keyval gives a document of which the old one has one line more, and which says nothing
/// of the path of one of its keys, if the old one obeys the rules and no other key part in it names that path. The keys
/// before that one are those that the line passes.
pub fn remove_takes_dots()
    ensures { keyvals.RemoveTakesDots }
{}

/// An `insert` of one key at the end of a body gives a document with one line more that has nothing in its value, and
/// then the value there.
pub fn insert_adds_value()
    ensures { keyvals.InsertAddsValue }
{}

/// A `remove` of such a line takes what is in its value, and then the line.
pub fn remove_takes_value()
    ensures { keyvals.RemoveTakesValue }
{}

/// An `append_table` or an `append_element` that is not refused gives a document with one statement more, as its last:
/// the header with these keys, which are in UTF-8.
pub fn append_adds_statement()
    ensures table { headers.AppendTableAddsStatement }
    ensures element { headers.AppendElementAddsStatement }
{}

/// An `insert` that adds a line to a document adds the same one after another, of another path, added its line. So it
/// is if either line is of a table that dotted keys make, and the later one comes after the earlier where both come to
/// one place. One that brings the header of its table, which is there because headers go through it, brings the same
/// after another such insert, of another table and to another place, brought its own. After an insert brought the
/// header of its table, another into the table adds its line directly behind.
pub fn inserts_add_lines()
    ensures line { added.StillAddsLine }
    ensures any { dotted.StillAddsLineTo }
    ensures header { brought.StillBringsHeader }
    ensures opens { brought.OpensTable }
{}

/// A `remove` that takes a line takes the same one after another, of another path, took its line.
pub fn removes_take_lines()
    ensures { removed.StillRemovesLine }
{}

/// A `remove` of the line that an `insert` has just added, at the end of a body or to a table that dotted keys make, is
/// not refused, and leaves the document as it was before both.
pub fn remove_undoes_insert()
    ensures { undone.RemoveUndoesInsert }
{}

/// A `set` makes the same change after another made its own elsewhere.
pub fn sets_change_values()
    ensures { values.StillSetsValue }
{}

/// A `set` after another of the same path replaces what that one wrote, and gives the document that it alone gives.
pub fn set_again_is_set()
    ensures { values.SetsAgain }
{}

/// A `rename` makes the same change after another made its own elsewhere, of a path apart.
pub fn renames_change_keys()
    ensures { keys.StillRenamesKey }
{}

/// A `rename` of a key that another renamed before replaces what that one wrote, and gives the document that a `rename`
/// of the first key to the last gives.
pub fn rename_again_is_rename()
    ensures { keys.RenamesAgain }
{}

/// A table or an element that is appended to a text that ends in a newline is written in the same way after another.
pub fn appends_add_headers()
    ensures table { appended.StillAppendsTable }
    ensures element { appended.StillAppendsElement }
{}

/// So does each of these after one of another kind that leaves it alone, and so does a `remove` that leaves its line
/// with the comment. So a run of such edits is known by the document before it: none is refused, and the text is that
/// one's with all the changes.
pub fn runs_are_known()
    ensures still { runs.StillMakesChange }
    ensures none { runs.NoneIsRun }
    ensures run { runs.RunGoesOn }
{}

/// A list of such edits is a run, if each makes its change beside those before it, which leave it alone; and if an
/// insert comes into a table whose header one of them brought, and adds its line alone behind that. If one of them
/// sets a value, the run goes on by a set of that value, too: the later set takes the place of the earlier one. So it
/// goes on where a key that one of them renames is renamed again, if the others leave the first key's rename alone; and
/// where the value of a line that one of them adds is set: the line is added with the later value. And where the key of
/// such a line is renamed, it is added with the later key.
pub fn runs_go_on_again()
    ensures known { lists.RunIsKnown }
    ensures behind { lists.RunGoesOnBehind }
    ensures run { lists.RunGoesOnAgain }
    ensures renamed { renames.RunGoesOnRenamed }
    ensures inserted { inserts.RunGoesOnInserted }
    ensures there { line_keys.RunGoesOnRenamedThere }
{}

/// Such a list goes on by an insert at the end of a body whose last line one of its edits takes, and by one into a
/// table of dotted keys right before bytes that one takes: as if the insert had come before that edit.
pub fn lines_come_before()
    ensures place { in_place.RunGoesOnInPlace }
    ensures taken { in_place.RunGoesOnBefore }
{}

/// A line that comes to a byte at which earlier edits of such a list brought what has to come behind it comes before
/// that: a line of a table that dotted keys make before one of such a table above that and one at the end of the body,
/// all before a header that came with its line, and any line before a header that was appended at the end of the text.
/// The list goes on by it as if those had come last.
pub fn lines_come_ahead()
    ensures header { ahead.StillAddsAhead }
    ensures line { ahead.StillAddsAheadOfEnd }
    ensures above { ahead.StillAddsAheadOfAbove }
    ensures table { ahead.StillAddsAheadOfTable }
    ensures element { ahead.StillAddsAheadOfElement }
    ensures run { ahead.RunGoesOnAhead }
    ensures count { ahead.CountsBehind }
{}

/// An insert that brings the header of its table brings it at the end of the text after a header was appended there
/// that goes through the table; and it brings the same, at the same byte, after another insert brought a header there
/// that does not.
pub fn headers_come_below()
    ensures table { below.StillBringsBelowTable }
    ensures element { below.StillBringsBelowElement }
    ensures ahead { below.StillBringsAhead }
{}

/// An insert of several keys adds the line that it adds at the end of a body, or to a table that dotted keys make,
/// after another of the same first new key, too: right behind that one's line, in the table that its own dotted keys
/// made. So runs of edits go on by such inserts.
pub fn more_keys_come_behind()
    ensures line { more_keys.AddsMoreKey }
    ensures opens { more_keys.RunIsOpen }
    ensures inside { more_keys.RunGoesOnInside }
{}

/// Edits that write at the end of the text come after any other that they leave alone, whichever was made first: each
/// makes the change that it makes without the other, and both make one document. A header goes on with them; and so
/// does an insert into a table through which one of them goes, right behind that.
pub fn ends_come_later()
    ensures later { ends.EndComesLater }
    ensures entry { ends.EndComesAfterEntry }
    ensures element { ends.EndComesAfterElement }
    ensures header { ends.EndGoesOn }
    ensures below { ends.EndGoesOnBelow }
{}

/// So is a run of inserts that each add the next item of one array.
pub fn inserts_add_items()
    ensures { items.ItemRunGoesOn }
{}

/// A `remove` of a table or of an element of an array of tables, each with its header, makes the same change after
/// another of these made its own, if the path is followed that its node has in the meantime: after an element the later
/// ones of its array have numbers one lower. So a run of them is known by the document before it.
pub fn removes_take_headers()
    ensures still { taken.StillRemovesHeader }
    ensures none { taken.NoneIsHeaderRun }
    ensures run { taken.HeaderRunGoesOn }
{}

/// New tables and elements that are appended, and keys that are inserted into the last of them, are known by the
/// document before all of them: each comes at the end of the text.
pub fn new_tables_are_filled()
    ensures none { filled.NoneIsFilledRun }
    ensures table { filled.FilledRunGoesOnTable }
    ensures element { filled.FilledRunGoesOnElement }
    ensures key { filled.FilledRunGoesOnKey }
{}

/// A `remove` of an element of an array of tables, or of a table, with its header makes the same change after any edit
/// of a run that is elsewhere than in the array, and such an edit after it. So edits of all kinds between which
/// elements go are known by the document before them.
pub fn elements_go_in_runs()
    ensures still { elements.StillMakesChangeWithout }
    ensures after { elements.StillRemovesHeaderAfter }
    ensures known { elements.RunIsElementRun }
    ensures run { elements.ElementRunGoesOn }
    ensures entry { elements.ElementRunGoesOnByEntry }
    ensures without { elements.ElementRunGoesOnWithout }
{}

/// An edit of an item makes what the `set` of its array makes, and one of a key in an inline table what the `set` of
/// that table makes: an insert, a `remove`, a `set` or a `rename`. It does so of a value with the same bytes at any
/// path of any document. So it can be in a run, as that set.
pub fn edits_of_entries_are_sets()
    ensures still { entries.StillMakesSet }
    ensures run { entries.RunGoesOnByEntry }
{}

/// What an insert or a `remove` of an entry makes of the value that holds it is a value, too. To make it is what the
/// `set` to that value makes, wherever the value is.
pub fn entries_change_values()
    ensures item { parts.PutItemIsValue }
    ensures keyval { parts.PutKeyvalIsValue }
    ensures taken { parts.TakenEntryIsValue }
    ensures set { parts.EntryChangeIsSet }
{}
