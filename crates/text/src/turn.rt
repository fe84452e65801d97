// What a whole line brings, by the part of the text that it stands in, and what the text's end brings (document 01, "The program's text"; document 02,
// E4). The line, the table and the store are lent; whoever calls has seen that the table has room.

ghost use Rattle.std.specs.Prelude.{List, ◌≡◌, ℕ, ◌≤◌, ◌<◌, eqb};
ghost use Rattle.rules.specs.Limits.{row_limit};
ghost use Rattle.refusals.specs.Refusals.{refused};
ghost use Rattle.lines.specs.Digits.{byte_at};
ghost use Rattle.lines.specs.Line.{line_feed};
ghost use Rattle.lines.specs.Frame.{read_frame};
ghost use Rattle.lines.specs.Rule.{read_rule};
ghost use Rattle.lines.specs.ListLine.{read_list, list_of};
ghost use Rattle.text.specs.Replies.{refused_line};
ghost use Rattle.text.specs.Reply.{line_of, text_of};
ghost use Rattle.text.specs.Transcript.{last_row};
ghost use Rattle.text.specs.Turn.{Room, refusing, before_list, after_list, empty_turn, rule_turn, list_turn, frame_turn, line_turn, Turned};
ghost use Rattle.text.specs.Feed.{end_text};
ghost use Rattle.text.specs.declared.state.Part.TheVariants as Part;

use crate::replies::Reply;
use crate::state::{Part, Stage};
use lines::frame::read_frame;
use lines::list::{is_list_line, read_list};
use lines::rule::read_rule;
use monitor::start::start;
use monitor::step::frame;
use refusals::refusal::Refusal;
use row_list::list::{LIST_LIMIT, RowList};
use rules::limits::{ROW_LIMIT, ROW_NUMBERS};
use soundness::setup::Setup;

// Table and store stand beside the stage: a struct that held the references would have each method promise that it keeps them.
impl Stage {
    // A line of any part.
    pub(crate) fn turn(
        &mut self,
        table: &mut [u32],
        store: &mut [u64],
        line: &[u8],
    ) -> Option<Reply>
        requires { Room self.old table.old }
        ensures { Turned (line_turn line.now) self.old table.old store.old self.new table.new store.new result }
    {
        match self.part {
            Part::Rules => self.before_list(table, store, line),
            Part::Listed => self.after_list(table, store, line),
            Part::Frames => self.frame_line(table, store, line),
            Part::Over => None,
        }
    }

    // What the text's end brings: a line that it cuts off is a bad line, and a text that ends before the empty line is refused.
    pub(crate) fn end(&self, line: &[u8]) -> Option<Reply>
        ensures { text_of result ≡ end_text self.now.part self.now.rows line.now }
    {
        match self.part {
            Part::Rules => Some(end_of_rules(self.rows, line)),
            Part::Listed if line.is_empty() => Some(Reply::from(Refusal::BadLine)),
            Part::Listed => Some(Reply::from(Refusal::RowList)),
            Part::Frames if line.is_empty() => None,
            Part::Frames => Some(Reply::from(Refusal::BadLine)),
            Part::Over => None,
        }
    }

    // A line among the rules: the empty line, the list line, a rule line, or a line after all the rows that a table may have.
    #[tactic(auto, unfolding(crate::specs::Turn::before_list))]
    fn before_list(&mut self, table: &mut [u32], store: &mut [u64], line: &[u8]) -> Option<Reply>
        requires room { Room self.old table.old }
        requires among_rules { self.old.part ≡ Part.Rules }
        ensures { Turned (before_list line.now) self.old table.old store.old self.new table.new store.new result }
    {
        if is_empty(line) {
            self.list = last_row(self.rows);
            return self.empty_line(table, store);
        }
        if is_list_line(line, 0) {
            return self.list_line(line);
        }
        if ROW_LIMIT <= self.rows {
            return self.refuse(Refusal::Length);
        }
        self.rule_line(table, line)
    }

    // A line after the list line: the empty line, or a refusal.
    #[tactic(auto, unfolding(crate::specs::Turn::after_list))]
    fn after_list(&mut self, table: &[u32], store: &mut [u64], line: &[u8]) -> Option<Reply>
        requires { Room self.old table.now }
        ensures { Turned (after_list line.now) self.old table.now store.old self.new table.now store.new result }
    {
        if is_empty(line) {
            return self.empty_line(table, store);
        }
        self.refuse(Refusal::RowList)
    }

    // A refusal up to or at the empty line: nothing more is written.
    fn refuse(&mut self, fault: Refusal) -> Option<Reply>
        ensures { (table store : List ℕ) → Turned (λ d. refusing d (refused_line (refused fault)))
            self.old table store self.new table store result }
    {
        self.part = Part::Over;
        Some(Reply::from(fault))
    }

    // A list line is read and kept; "A list line of bad form or sum .. is EE0A00 at once".
    fn list_line(&mut self, line: &[u8]) -> Option<Reply>
        ensures { (table store : List ℕ) → Turned (list_turn (read_list line.now 0).said)
            self.old table store self.new table store result }
    {
        match read_list(line, 0).found {
            Some(Ok(list)) => {
                self.part = Part::Listed;
                self.list = list;
                None
            }
            // Two arms: under one pattern for both the proof cannot tell what was read.
            Some(Err(_)) => self.refuse(Refusal::RowList),
            None => self.refuse(Refusal::RowList),
        }
    }

    // A rule line is read, and its numbers follow the rows read. A bad one is refused with its line counted from 00.
    fn rule_line(&mut self, table: &mut [u32], line: &[u8]) -> Option<Reply>
        requires room { Room self.old table.old }
        requires below_limit { self.old.rows < row_limit }
        requires among_rules { self.old.part ≡ Part.Rules }
        ensures { (store : List ℕ) → Turned (rule_turn (read_rule line.now 0).said)
            self.old table.old store self.new table.new store result }
    {
        match read_rule(line, 0).found? {
            Ok(rule) => {
                let place = self.rows * ROW_NUMBERS;
                let numbers = [rule.kind, rule.x, rule.y, rule.a, rule.b];
                table[place..place + ROW_NUMBERS].copy_from_slice(&numbers);
                self.rows += 1;
                None
            }
            Err(fault) => {
                self.part = Part::Over;
                Some(Reply::Refused(fault, self.rows as u32))
            }
        }
    }

    // The empty line: the monitor starts, which checks the table and the list, and answers the need.
    fn empty_line(&mut self, table: &[u32], store: &mut [u64]) -> Option<Reply>
        requires { Room self.old table.now }
        ensures { Turned (λ d. empty_turn d.stage.list d) self.old table.now store.old self.new table.now store.new result }
    {
        let setup = Setup {
            table: &table[..self.rows * ROW_NUMBERS],
            list: self.list.numbers(),
        };
        match start(setup, store, &mut self.found) {
            Ok(need) => {
                self.part = Part::Frames;
                Some(Reply::Need(need))
            }
            Err(fault) => self.refuse(fault),
        }
    }

    // A frame's line is read, and the frame is judged; the time that is written is the clock after it.
    fn frame_line(&mut self, table: &[u32], store: &mut [u64], line: &[u8]) -> Option<Reply>
        requires room { Room self.old table.now }
        requires among_frames { self.old.part ≡ Part.Frames }
        ensures { Turned (frame_turn (read_frame line.now 0).said) self.old table.now store.old self.new table.now store.new result }
    {
        let setup = Setup {
            table: &table[..self.rows * ROW_NUMBERS],
            list: self.list.numbers(),
        };
        match read_frame(line, 0).found? {
            Ok(read) => match frame(setup, store, &mut self.found, read.counter, read.mask) {
                Ok(accepted) => Some(Reply::Accepted(self.found.clock, accepted)),
                Err(fault) => Some(Reply::from(fault)),
            },
            Err(fault) => Some(Reply::from(fault)),
        }
    }
}

// Whether a line is the empty one.
fn is_empty(line: &[u8]) -> bool
    ensures { result ≡ eqb (byte_at line.now 0) line_feed }
{
    line.first() == Some(&b'\n')
}

// "no list means the last row alone"; a table of no rows is refused before its list.
fn last_row(rows: usize) -> RowList
    requires { rows ≤ row_limit }
    ensures { result ≡ list_of (last_row rows) }
{
    let mut list = [0; LIST_LIMIT];
    list[0] = rows.saturating_sub(1) as u32;
    RowList {
        rows: list,
        count: 1,
    }
}

// Among the rules: no line is begun, the line is a bad list line, one more than the row limit, or a bad rule line.
fn end_of_rules(rows: usize, line: &[u8]) -> Reply
    ensures { line_of result ≡ end_text Part.Rules rows line.now }
{
    if line.is_empty() {
        return Reply::from(Refusal::BadLine);
    }
    if is_list_line(line, 0) {
        return Reply::from(Refusal::RowList);
    }
    if ROW_LIMIT <= rows {
        return Reply::from(Refusal::Length);
    }
    Reply::Refused(Refusal::BadLine, rows as u32)
}
