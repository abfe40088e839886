//! A line, and its reply.
ghost use Rattle.std.specs.Prelude.{◌≡◌, ◌⊎◌, ℕ, List, None, Some, Ok, Err, IsTrue, false, true, map, option_copied, MatchResult};
ghost use Rattle.std.specs.Str.{is_utf8};
ghost use Rattle.sf_layers.specs.Content.{layer_of};
ghost use Rattle.sf_text_lines.specs.Lines.{HasNoFeed};
ghost use Rattle.sf_text_lines.specs.Buffers.{IsBufferOf};
ghost use Rattle.sf_commands.specs.Commands.{command_of, takes_memory};
ghost use Rattle.sf_commands.specs.GroupTexts.{group_of};
ghost use Rattle.sf_console.specs.Answers.{reply_text, refusal_line, rows, rows_of, layer_row, column_rows as column_rows_of, column_spot as column_spot_of, feature_rows as feature_rows_of, found, found_by, got, told, hex_text, measured as measured_of, simple_text, box_text, distant_text, related_text, near_rows, found_rows};
ghost use Rattle.sf_history.specs.History.{Machine};
ghost use Rattle.sf_console.specs.Readings.{Asked, line_text, reading_of, text_reading};
ghost use Rattle.sf_console.specs.Requests.{Ends, Gathering, Request, gathered};
ghost use Rattle.sf_console.specs.Gatherings.{Asks, IsHeld, IsLastAnswered, IsTaken};
ghost use Rattle.sf_console.specs.Session.{IsAnswered};

use super::checking::checked;
use super::finding::{ids_with, may_be_sought};
use super::group_lines::{GroupLines, LineAsks};
use super::grouping::{answer_cut, answer_group};
use super::joining::joined;
use super::nearest::nearest;
use super::reaching::{reach, reach_until};
use super::reply::{Reply, distance_line, hex_line};
use super::rows::{column_rows, feature_rows, id_rows, layer_rows, measured_rows, rows_under};
use super::rules::{add_rule, drop_rule, refused_by_rules, rules};
use sf_commands::{Command, Identifiers, Sought, is_blank_text, parse, parse_group};
use sf_distance::Reach;
use sf_history::Editor;
use sf_layers::{Store, Text};
use sf_measure::Measure;
use sf_near::{distance_to, features_within};
use sf_query::{Ask, query, relate_one};
use sf_refusals::Refusal;
use sf_steps::{Answer, Edit};
use sf_text_lines::{LineBuffer, without_return};
use sf_validity::{Valid, is_simple};
use std::alloc::Global;
use std::str::from_utf8;

/// Answers a line that had its line feed, by itself or as one of a group. The reply is sent as `reply_text` says: what has
/// one line by `AnswerLine` or `matrix_line`, which take no memory, and rows as they are.
pub(crate) fn answer_line(
    alloc: Global,
    editor: &mut Editor,
    group: &mut GroupLines,
    buffer: &LineBuffer,
) -> Result<Reply, Refusal>
    ensures { (bytes : List ℕ) (gathering : Gathering) → IsBufferOf bytes buffer.now → HasNoFeed bytes → IsHeld gathering group.old →
        IsTaken editor.old gathering (line_text (record { bytes = bytes; ended = true })) (reply_text result) editor.new group.new }
{
    let line = whole_line(buffer);
    // Most lines are: nothing else need be done for them.
    if group.is_alone(line) {
        return answer_single(alloc, editor, line);
    }
    let asks = group.take(alloc, line);
    answer_asked(alloc, editor, line, asks)
}

/// Answers the last line, which had no line feed, if there is one, and then the end of the input, which cuts a group off; no
/// more than one of both has an answer. The reply is sent as that of `answer_line`.
pub(crate) fn answer_last_line(
    alloc: Global,
    editor: &mut Editor,
    group: &mut GroupLines,
    buffer: &LineBuffer,
) -> Result<Reply, Refusal>
    ensures { (bytes : List ℕ) (gathering : Gathering) → IsBufferOf bytes buffer.now → HasNoFeed bytes → IsHeld gathering group.old →
        IsLastAnswered editor.old gathering bytes (reply_text result) editor.new }
{
    if buffer.is_empty() {
        return answer_end(alloc, group);
    }
    let line = buffer.line();
    let asks = group.take(alloc, line);
    if group.is_closed() {
        answer_asked(alloc, editor, line, asks)
    } else {
        answer_end(alloc, group)
    }
}

/// Answers the end of the input: a group that is open is cut off.
pub fn answer_end(alloc: Global, group: &GroupLines) -> Result<Reply, Refusal>
    ensures { (gathering : Gathering) (machine : Machine) → IsHeld gathering group.now →
        IsAnswered machine (gathered gathering Ends).1.reading (reply_text result) machine }
{
    match group {
        GroupLines::Closed => Ok(Reply::Nothing),
        GroupLines::Open { text, .. } => answer_cut(alloc, text.as_str()),
        GroupLines::Lost { .. } => Err(Refusal::Memory),
    }
}

/// The text of a line that had its line feed; None where it is too long.
pub fn whole_line(buffer: &LineBuffer) -> Option<&[u8]>
    ensures { (bytes : List ℕ) → IsBufferOf bytes buffer.now → option_copied result ≡ line_text (record { bytes = bytes; ended = true }) }
{
    match buffer.line() {
        Some(bytes) => Some(without_return(bytes)),
        None => None,
    }
}

/// Answers a line that is neither a head nor a group.
fn answer_single(alloc: Global, editor: &mut Editor, line: Option<&[u8]>) -> Result<Reply, Refusal>
    requires { (bytes : List ℕ) → option_copied line ≡ Some bytes → group_of bytes ≡ None }
    ensures { IsAnswered editor.old (reading_of (option_copied line.entry)) (reply_text result) editor.new }
{
    match line {
        Some(bytes) => answer_single_text(alloc, editor, bytes),
        None => Err(Refusal::LineTooLong),
    }
}

/// The same of a text that is not too long.
fn answer_single_text(alloc: Global, editor: &mut Editor, bytes: &[u8]) -> Result<Reply, Refusal>
    requires { group_of bytes.now ≡ None }
    ensures { IsAnswered editor.old (text_reading bytes.now) (reply_text result) editor.new }
{
    let Ok(text) = from_utf8(bytes) else {
        return Err(Refusal::BadCommand);
    };
    if is_blank_text(text) {
        return Ok(Reply::Nothing);
    }
    answer_command(alloc, editor, text)
}

/// Answers a text as a command.
fn answer_command(alloc: Global, editor: &mut Editor, text: &str) -> Result<Reply, Refusal>
    ensures { IsAnswered editor.old (Asked (takes_memory text.now) (command_of text.now)) (reply_text result) editor.new }
{
    let (asker, command) = parse(alloc, text)?;
    execute(alloc, editor, asker, command)
}

/// Answers what a line asks.
fn answer_asked(
    alloc: Global,
    editor: &mut Editor,
    line: Option<&[u8]>,
    asks: LineAsks,
) -> Result<Reply, Refusal>
    ensures { (request : Request) → Asks (option_copied line.entry) request asks →
        IsAnswered editor.old request.reading (reply_text result) editor.new }
{
    match asks {
        LineAsks::Nothing => Ok(Reply::Nothing),
        LineAsks::Itself => answer_alone(alloc, editor, line),
        LineAsks::Group(text) => answer_said(alloc, editor, text.as_str()),
        LineAsks::Lost => Err(Refusal::Memory),
    }
}

/// Answers a line that asks something by itself.
fn answer_alone(alloc: Global, editor: &mut Editor, line: Option<&[u8]>) -> Result<Reply, Refusal>
    ensures { IsAnswered editor.old (reading_of (option_copied line.entry)) (reply_text result) editor.new }
{
    match line {
        Some(bytes) => answer_text(alloc, editor, bytes),
        None => Err(Refusal::LineTooLong),
    }
}

/// Answers a text: that of a line which is not too long, or that of a group.
fn answer_text(alloc: Global, editor: &mut Editor, bytes: &[u8]) -> Result<Reply, Refusal>
    ensures { IsAnswered editor.old (text_reading bytes.now) (reply_text result) editor.new }
{
    let Ok(text) = from_utf8(bytes) else {
        return Err(Refusal::BadCommand);
    };
    answer_said(alloc, editor, text)
}

/// The same of a text that is known to be UTF-8.
fn answer_said(alloc: Global, editor: &mut Editor, text: &str) -> Result<Reply, Refusal>
    ensures { IsTrue (is_utf8 text.now) → IsAnswered editor.old (text_reading text.now) (reply_text result) editor.new }
{
    if is_blank_text(text) {
        return Ok(Reply::Nothing);
    }
    if let Some((asker, group)) = parse_group(alloc, text) {
        return answer_group(alloc, editor, asker, group);
    }
    answer_command(alloc, editor, text)
}

/// Carries a command out, of the editor of that number. Nothing is read any more, so memory may run out only for what
/// takes it here. The reply is sent as that of `answer_line`.
pub fn execute(
    alloc: Global,
    editor: &mut Editor,
    asker: u8,
    command: Command,
) -> Result<Reply, Refusal>
    ensures { IsAnswered editor.old (Asked false (Ok (asker, command))) (reply_text result) editor.new }
{
    match command {
        Command::Edit(edit) => carry_out_edit(alloc, editor, asker, edit),
        Command::Undo => undo(alloc, editor, asker),
        Command::Redo => redo(alloc, editor, asker),
        // A match of so many arms prepares for each of them, which edits need not pay for.
        command => execute_any(alloc, editor, asker, command),
    }
}

/// Takes the last step back, where it was the editor's.
fn undo(alloc: Global, editor: &mut Editor, asker: u8) -> Result<Reply, Refusal>
    ensures { IsAnswered editor.old (Asked false (Ok (asker, Command.Undo))) (reply_text result) editor.new }
{
    editor.undo_as(alloc, asker)?;
    Ok(Reply::Accepted(Answer::Done))
}

/// Redoes the last step that was taken back, where it was the editor's.
fn redo(alloc: Global, editor: &mut Editor, asker: u8) -> Result<Reply, Refusal>
    ensures { IsAnswered editor.old (Asked false (Ok (asker, Command.Redo))) (reply_text result) editor.new }
{
    editor.redo_as(alloc, asker)?;
    Ok(Reply::Accepted(Answer::Done))
}

/// The same, of any command.
fn execute_any(
    alloc: Global,
    editor: &mut Editor,
    asker: u8,
    command: Command,
) -> Result<Reply, Refusal>
    ensures { IsAnswered editor.old (Asked false (Ok (asker, command))) (reply_text result) editor.new }
{
    match command {
        Command::Edit(edit) => carry_out_edit(alloc, editor, asker, edit),
        Command::AddRule(rule) => add_rule(alloc, editor, asker, rule.into_rule()),
        Command::DropRule(name) => drop_rule(alloc, editor, asker, &name),
        Command::Undo => undo(alloc, editor, asker),
        Command::Redo => redo(alloc, editor, asker),
        Command::Layers => layers(alloc, editor.store()),
        Command::Rules => rules(alloc, editor.rules()),
        Command::Columns(name) => columns(alloc, editor.store(), &name),
        Command::Show(name) => show(alloc, editor.store(), &name),
        Command::Get(layer, ids) => get(alloc, editor.store(), &layer, &ids),
        Command::Find(layer, column, sought) => {
            find_by_index(alloc, editor, &layer, &column, &sought)
        }
        Command::Check(layer, geometry) => checked(alloc, editor.store(), &layer, &geometry),
        Command::Hex(layer, id) => hex(alloc, editor.store(), &layer, id),
        Command::Simple(layer, id) => simple(alloc, editor.store(), &layer, id),
        Command::Extent(layer, id) => extent(editor.store(), &layer, id),
        Command::Measured(measure, layer, ids) => {
            measured(alloc, editor.store(), measure, &layer, &ids)
        }
        Command::Distance(layer, id, given) => distance(alloc, editor.store(), &layer, id, &given),
        Command::Nearest(layer, count, given) => nearest(
            alloc,
            editor.store(),
            &layer,
            count,
            &given,
        ),
        Command::Reach(layer, ask, ids) => reach(alloc, editor.store(), &layer, &ask, &ids),
        Command::ReachUntil(layer, ask, ids, second, end) => {
            reach_until(alloc, editor.store(), &layer, &ask, &ids, &second, &end)
        }
        Command::Relate(layer, id, given) => relate(alloc, editor.store(), &layer, id, &given),
        Command::Match(layer, pattern, given) => {
            let ask = Ask::Matching(pattern);
            features(alloc, editor.store(), &layer, &ask, &given)
        }
        Command::Query(layer, predicate, given) => {
            let ask = Ask::Named(predicate);
            features(alloc, editor.store(), &layer, &ask, &given)
        }
        Command::Near(layer, reach, given) => near(alloc, editor.store(), &layer, reach, &given),
        Command::Join(first, ask, second, id) => {
            joined(alloc, editor.store(), &first, &ask, &second, id)
        }
    }
}

/// Carries an edit out, of the editor of that number.
fn carry_out_edit(
    alloc: Global,
    editor: &mut Editor,
    asker: u8,
    edit: Edit,
) -> Result<Reply, Refusal>
    ensures { IsAnswered editor.old (Asked false (Ok (asker, Command.Edit edit))) (reply_text result) editor.new }
{
    match editor.edit_as(alloc, asker, edit) {
        Ok(answer) => Ok(Reply::Accepted(answer)),
        Err(refusal) => refused_by_rules(alloc, editor.rules(), refusal),
    }
}

/// The layers in order.
fn layers(alloc: Global, store: &Store) -> Result<Reply, Refusal>
    ensures { (reply_text result ≡ rows (map layer_row store.now)) ⊎ (reply_text result ≡ refusal_line Refusal.Memory) }
{
    Ok(Reply::Lines(layer_rows(alloc, store)?))
}

/// The columns of the layer of that name.
fn columns(alloc: Global, store: &Store, name: &Text) -> Result<Reply, Refusal>
    ensures { (reply_text result ≡ rows_of column_rows_of (layer_of store.now name.now)) ⊎ (reply_text result ≡ refusal_line Refusal.Memory) }
{
    let layer = store.layer(name.as_str()).ok_or(Refusal::NoLayer)?;
    Ok(Reply::Lines(column_rows(alloc, layer)?))
}

/// The features of the layer of that name.
fn show(alloc: Global, store: &Store, name: &Text) -> Result<Reply, Refusal>
    ensures { (reply_text result ≡ rows_of feature_rows_of (layer_of store.now name.now)) ⊎ (reply_text result ≡ refusal_line Refusal.Memory) }
{
    let layer = store.layer(name.as_str()).ok_or(Refusal::NoLayer)?;
    Ok(Reply::Lines(feature_rows(alloc, layer)?))
}

/// The features under these identifiers in the layer of that name, in their order.
fn get(alloc: Global, store: &Store, name: &Text, ids: &Identifiers) -> Result<Reply, Refusal>
    ensures { (reply_text result ≡ got (layer_of store.now name.now) ids.now) ⊎ (reply_text result ≡ refusal_line Refusal.Memory) }
{
    let layer = store.layer(name.as_str()).ok_or(Refusal::NoLayer)?;
    Ok(Reply::Lines(rows_under(alloc, layer, ids.as_slice())?))
}

/// The areas or the lengths of the features under these identifiers in the layer of that name, in their order.
fn measured(
    alloc: Global,
    store: &Store,
    measure: Measure,
    name: &Text,
    ids: &Identifiers,
) -> Result<Reply, Refusal>
    ensures { (reply_text result ≡ measured_of measure (layer_of store.now name.now) ids.now) ⊎ (reply_text result ≡ refusal_line Refusal.Memory) }
{
    let layer = store.layer(name.as_str()).ok_or(Refusal::NoLayer)?;
    Ok(Reply::Lines(measured_rows(alloc, measure, layer, ids.as_slice())?))
}

/// The same as `find`, once the column has its index by value.
fn find_by_index(
    alloc: Global,
    editor: &mut Editor,
    name: &Text,
    column: &Text,
    sought: &Sought,
) -> Result<Reply, Refusal>
    ensures answered { (reply_text result ≡ found_by (layer_of editor.old.now name.now) column.now sought.now) ⊎ (reply_text result ≡ refusal_line Refusal.Memory) }
    ensures unchanged { editor.new ≡ editor.old }
{
    index_sought(alloc, editor, name, column, sought);
    find(alloc, editor.store(), name, column, sought)
}

/// Makes the index of the column in which a value or a range is sought, where there is none.
fn index_sought(alloc: Global, editor: &mut Editor, name: &Text, column: &Text, sought: &Sought)
    ensures { editor.new ≡ editor.old }
{
    if let Sought::Any = sought {
        return;
    }
    let Some((place, number)) = column_spot(editor.store(), name, column) else {
        return;
    };
    editor.index_values(alloc, place, number);
}

/// The place of the layer of a name, and the number of its column of a name, where both are there.
fn column_spot(store: &Store, name: &Text, column: &Text) -> Option<(usize, u16)>
    ensures { result ≡ column_spot_of store.now name.now column.now }
{
    let place = store.place(name.as_str())?;
    let layer = store.layer(name.as_str())?;
    Some((place, layer.column(column.as_str())?.number))
}

/// The identifiers of the features with a value that is sought in the column of that name.
fn find(
    alloc: Global,
    store: &Store,
    name: &Text,
    column: &Text,
    sought: &Sought,
) -> Result<Reply, Refusal>
    ensures { (reply_text result ≡ found_by (layer_of store.now name.now) column.now sought.now) ⊎ (reply_text result ≡ refusal_line Refusal.Memory) }
{
    let layer = store.layer(name.as_str()).ok_or(Refusal::NoLayer)?;
    let column = layer.column(column.as_str()).ok_or(Refusal::NoColumn)?;
    if !may_be_sought(column.column_type, sought) {
        return Err(Refusal::WrongValue);
    }
    let ids = ids_with(alloc, layer, column.number, sought)?;
    Ok(Reply::Lines(id_rows(alloc, ids.as_slice())?))
}

/// The canonical bytes of a feature's geometry.
fn hex(alloc: Global, store: &Store, layer: &Text, id: u32) -> Result<Reply, Refusal>
    ensures { (reply_text result ≡ told hex_text (layer_of store.now layer.now) id) ⊎ (reply_text result ≡ refusal_line Refusal.Memory) }
{
    let valid = valid_of(store, layer, id)?;
    Ok(Reply::Lines(hex_line(alloc, valid)?))
}

/// Whether a feature's geometry is simple.
fn simple(alloc: Global, store: &Store, layer: &Text, id: u32) -> Result<Reply, Refusal>
    ensures { (reply_text result ≡ told simple_text (layer_of store.now layer.now) id) ⊎ (reply_text result ≡ refusal_line Refusal.Memory) }
{
    let valid = valid_of(store, layer, id)?;
    Ok(Reply::Truth(is_simple(alloc, valid)?))
}

/// The envelope of a feature's geometry.
fn extent(store: &Store, layer: &Text, id: u32) -> Result<Reply, Refusal>
    ensures { reply_text result ≡ told box_text (layer_of store.now layer.now) id }
{
    let valid = valid_of(store, layer, id)?;
    Ok(Reply::Extent(valid.geometry().envelope()))
}

/// The distance of a feature's geometry from the given one, and its square.
fn distance(
    alloc: Global,
    store: &Store,
    layer: &Text,
    id: u32,
    given: &Valid,
) -> Result<Reply, Refusal>
    ensures { (reply_text result ≡ told (distant_text given.now) (layer_of store.now layer.now) id) ⊎ (reply_text result ≡ refusal_line Refusal.Memory) }
{
    let square = distance_to(alloc, store, layer.as_str(), id, given)?;
    Ok(Reply::Lines(distance_line(alloc, &square)?))
}

/// The matrix of a feature's geometry with the given one.
fn relate(
    alloc: Global,
    store: &Store,
    layer: &Text,
    id: u32,
    given: &Valid,
) -> Result<Reply, Refusal>
    ensures { (reply_text result ≡ told (related_text given.now) (layer_of store.now layer.now) id) ⊎ (reply_text result ≡ refusal_line Refusal.Memory) }
{
    let matrix = relate_one(alloc, store, layer.as_str(), id, given)?;
    Ok(Reply::Matrix(matrix))
}

/// The identifiers of the features of a layer whose matrix with the given geometry is as asked.
fn features(
    alloc: Global,
    store: &Store,
    layer: &Text,
    ask: &Ask,
    given: &Valid,
) -> Result<Reply, Refusal>
    ensures { (reply_text result ≡ rows_of (found_rows ask.now given.now) (layer_of store.now layer.now)) ⊎ (reply_text result ≡ refusal_line Refusal.Memory) }
{
    let found = query(alloc, store, layer.as_str(), ask, given)?;
    Ok(Reply::Lines(id_rows(alloc, found.ids.as_slice())?))
}

/// The identifiers of the features of a layer that have a point no farther than this from the given geometry.
fn near(
    alloc: Global,
    store: &Store,
    layer: &Text,
    reach: Reach,
    given: &Valid,
) -> Result<Reply, Refusal>
    ensures { (reply_text result ≡ rows_of (near_rows reach given.now) (layer_of store.now layer.now)) ⊎ (reply_text result ≡ refusal_line Refusal.Memory) }
{
    let ids = features_within(alloc, store, layer.as_str(), reach, given)?;
    Ok(Reply::Lines(id_rows(alloc, ids.as_slice())?))
}

/// The geometry of a feature. `NoLayer` where no layer has the name, `NoFeature` where the layer has none
/// under the identifier.
fn valid_of<'a>(store: &'a Store, layer: &Text, id: u32) -> Result<&'a Valid, Refusal>
    ensures { MatchResult result
        (λ valid. found (layer_of store.now layer.now) id ≡ Ok valid.now)
        (λ refusal. found (layer_of store.now layer.now) id ≡ Err refusal) }
{
    let layer = store.layer(layer.as_str()).ok_or(Refusal::NoLayer)?;
    let feature = layer.feature(id).ok_or(Refusal::NoFeature)?;
    Ok(feature.valid())
}
