//! What has come of a scenario so far.
ghost use Rattle.std.specs.Prelude.{◌≡◌, Some, None, OnOk, IfOk, if◌then◌else◌};
ghost use Rattle.text_lines.specs.declared.lines.lines.Form.TheVariants as form;
ghost use Rattle.text_lines.specs.Fields.{Gives};
ghost use Rattle.recursor_text.specs.WorldSteps.{Steps};
ghost use Rattle.recursor_text.specs.Spelling.{last_moment};
ghost use Rattle.recursor_text.specs.Whole.{is_late, late};
ghost use Rattle.recursor_text.specs.declared.reading.draft.Stage.TheVariants.{Scripted};
ghost use Rattle.recursor_text.specs.Unbuilt.{place_of};
ghost use Rattle.recursor_text.specs.Steps.{may_head, may_root, may_option, may_wait, may_tell, may_reply, may_ask, may_turn, may_end, is_ended, start, put, settle, add, taken, scenario_of, is_settled, is_short, rule_of};

use crate::scenario::{Scenario, Upstream};
use dns_core::{Ips, Items, NoMemory, Question, Record, TryClone, Turn};
use script_upstream::{Script, ScriptLine};
use std::alloc::Global;
use std::net::IpAddr;
use text_lines::{
    Counts, Form, LineError, OpenRule, OptionLine, form_line, last_rank, ns_recursion_limit,
    options_with, pass, record_line,
};

/// How many roots, questions and turns a scenario may have.
const MOST_ROOTS: usize = 64;

const MOST_QUESTIONS: usize = 10_000;

const MOST_TURNS: usize = 100_000;

/// Why a line that a draft does not take is refused.
#[derive(Clone, Copy, Debug, PartialEq, Eq)]
pub enum Refusal {
    Bad,
    NotBuilt,
}

/// Where the next line stands: after which kind of line, behind the rank of which option (0 for
/// none), whether it is owed as a record, and whether there is room for a question more.
#[derive(Clone, Copy, Debug, PartialEq, Eq)]
pub struct Place {
    pub stage: Stage,
    pub option: u8,
    pub owes: bool,
    pub room: bool,
}

/// The last kind of line that was taken.
#[derive(Clone, Copy, Debug, PartialEq, Eq)]
pub enum Stage {
    Start,
    Headed,
    Rooted,
    Optioned,
    Patient,
    Scripted,
    Asked,
    Turned,
    Ended,
}

/// What the lines so far say: `written` are the option lines, `pending` is a rule that owes records.
#[derive(Drop)]
pub struct Draft {
    pub stage: Stage,
    pub roots: Ips,
    pub written: Items<OptionLine>,
    pub patience: u32,
    pub rules: Items<ScriptLine>,
    pub pending: Option<OpenRule>,
    pub questions: Items<Question>,
    pub turns: Items<Turn>,
}

impl Stage {
    fn may_head(self) -> bool
        ensures { result ≡ may_head self }
    {
        matches!(&self, Stage::Start)
    }

    fn may_root(self) -> bool
        ensures { result ≡ may_root self }
    {
        matches!(&self, Stage::Headed | Stage::Rooted)
    }

    fn may_option(self) -> bool
        ensures { result ≡ may_option self }
    {
        matches!(&self, Stage::Rooted | Stage::Optioned)
    }

    fn may_wait(self) -> bool
        ensures { result ≡ may_wait self }
    {
        matches!(&self, Stage::Rooted | Stage::Optioned)
    }

    fn may_tell(self) -> bool
        ensures { result ≡ may_tell self }
    {
        matches!(&self, Stage::Patient)
    }

    fn may_reply(self) -> bool
        ensures { result ≡ may_reply self }
    {
        matches!(&self, Stage::Scripted)
    }

    fn may_ask(self) -> bool
        ensures { result ≡ may_ask self }
    {
        matches!(&self, Stage::Scripted | Stage::Asked)
    }

    fn may_turn(self) -> bool
        ensures { result ≡ may_turn self }
    {
        matches!(&self, Stage::Scripted | Stage::Asked | Stage::Turned)
    }

    fn may_end(self) -> bool
        ensures { result ≡ may_end self }
    {
        matches!(&self, Stage::Scripted | Stage::Asked | Stage::Turned)
    }

    fn is_ended(self) -> bool
        ensures { result ≡ is_ended self }
    {
        matches!(&self, Stage::Ended)
    }
}

/// The rule with one record more, in the first section that lacks one.
fn add(partial: OpenRule, entry: Record) -> Result<OpenRule, LineError>
    ensures { Gives result (add partial entry) }
{
    let mut open = partial;
    if open.owed.answers > 0 {
        open.message.answers.push(entry)?;
        open.owed.answers -= 1;
    } else if open.owed.authorities > 0 {
        open.message.authorities.push(entry)?;
        open.owed.authorities -= 1;
    } else if open.owed.additionals > 0 {
        open.message.additionals.push(entry)?;
        open.owed.additionals -= 1;
    } else {
        return Err(LineError::Refused);
    }
    Ok(open)
}

/// Whether it comes after the lines of the upstream.
fn is_late(form: &Form) -> bool
    ensures { result ≡ is_late form.now }
{
    matches!(form, Form::Question(_) | Form::Turn(_) | Form::End)
}

/// Passes it where it is such a one.
fn late_form(form: Form) -> Result<Form, LineError>
    ensures { Gives result (if is_late form then Some form else None) }
{
    if is_late(&form) {
        Ok(form)
    } else {
        drop(form);
        Err(LineError::Refused)
    }
}

fn is_settled(owed: Counts) -> bool
    ensures { result ≡ is_settled owed }
{
    owed.answers == 0 && owed.authorities == 0 && owed.additionals == 0
}

/// A rule, with the records that are there.
fn rule_of(alloc: Global, whole: OpenRule) -> Result<ScriptLine, NoMemory>
    ensures { IfOk result (λ line. line ≡ rule_of whole) }
{
    let OpenRule {
        ip,
        protocol,
        delay,
        message,
        owed: _,
    } = whole;
    let name = message.query.name.try_clone(alloc)?;
    Ok(ScriptLine::Reply {
        ip,
        protocol,
        name,
        query_type: message.query.query_type,
        delay,
        outcome: Ok(message),
    })
}

/// Whether a question has fewer labels than there may be zones on its way.
fn is_short(written: &[OptionLine], question: &Question) -> bool
    ensures { result ≡ is_short written.now question.now }
{
    question.query.name.num_labels() < ns_recursion_limit(written)
}

/// The moment of the last turn, and 0 where there is none.
fn last_moment(turns: &[Turn]) -> u64
    ensures { result ≡ last_moment 0 turns.now }
{
    match turns.last() {
        Some(turn) => turn.moment,
        None => 0,
    }
}

impl Draft {
    pub fn new(alloc: Global) -> Self
        ensures { result ≡ start }
    {
        Draft {
            stage: Stage::Start,
            roots: Ips::empty(alloc),
            written: Items::empty(alloc),
            patience: 0,
            rules: Items::empty(alloc),
            pending: None,
            questions: Items::empty(alloc),
            turns: Items::empty(alloc),
        }
    }

    pub fn is_ended(&self) -> bool
        ensures { result ≡ is_ended self.now.stage }
    {
        self.stage.is_ended()
    }

    /// Whether the next line may say where answers are told from.
    pub fn may_tell(&self) -> bool
        ensures { result ≡ may_tell self.now.stage }
    {
        self.stage.may_tell()
    }

    /// Whether the lines of the upstream may stand next.
    pub fn is_told(&self) -> bool
        ensures { result ≡ may_reply self.now.stage }
    {
        self.stage.may_reply()
    }

    /// Goes on to the lines of the upstream.
    pub fn tell(&mut self)
        ensures { self.new ≡ record self.old { stage = Scripted } }
    {
        self.stage = Stage::Scripted;
    }

    /// Where the next line stands.
    pub fn place(&self) -> Place
        ensures { result ≡ place_of self.now }
    {
        Place {
            stage: self.stage,
            option: last_rank(self.written.items()),
            owes: self.pending.is_some(),
            room: self.questions.len() < MOST_QUESTIONS,
        }
    }

    pub fn into_scenario(self, alloc: Global) -> Result<Scenario, NoMemory>
        ensures { IfOk result (λ scenario. scenario ≡ scenario_of self) }
    {
        let Draft {
            stage: _,
            roots,
            written,
            patience,
            rules,
            pending: _,
            questions,
            turns,
        } = self;
        Ok(Scenario {
            roots,
            options: options_with(alloc, written)?,
            patience,
            upstream: Upstream::Script(Script { lines: rules }),
            questions,
            turns,
        })
    }

    fn settle(&mut self, alloc: Global, partial: OpenRule) -> Result<(), NoMemory>
        ensures { OnOk result (self.new ≡ settle self.old partial) }
    {
        if is_settled(partial.owed) {
            let rule = rule_of(alloc, partial)?;
            self.rules.push(rule)?;
            self.pending = None;
        } else {
            self.pending = Some(partial);
        }
        Ok(())
    }

    /// Goes on to the next stage, where it may.
    fn advance(&mut self, may: bool, next: Stage) -> Result<(), LineError>
        ensures { Steps result self.new (if may then Some (record self.old { stage = next }) else None) }
    {
        pass(may)?;
        self.stage = next;
        Ok(())
    }

    fn put_root(&mut self, ip: IpAddr) -> Result<(), LineError>
        ensures { Steps result self.new (put self.old (form.Root ip)) }
    {
        pass(self.stage.may_root() && self.roots.len() < MOST_ROOTS)?;
        self.roots.push(ip)?;
        self.stage = Stage::Rooted;
        Ok(())
    }

    fn put_option(&mut self, line: OptionLine) -> Result<(), LineError>
        ensures { Steps result self.new (put self.old (form.Option line)) }
    {
        pass(self.stage.may_option() && last_rank(self.written.items()) < line.rank())?;
        self.written.push(line)?;
        self.stage = Stage::Optioned;
        Ok(())
    }

    fn put_patience(&mut self, patience: u32) -> Result<(), LineError>
        ensures { Steps result self.new (put self.old (form.Patience patience)) }
    {
        pass(self.stage.may_wait())?;
        self.patience = patience;
        self.stage = Stage::Patient;
        Ok(())
    }

    fn put_reply(&mut self, alloc: Global, rule: OpenRule) -> Result<(), LineError>
        ensures { Steps result self.new (put self.old (form.Reply rule)) }
    {
        pass(self.stage.may_reply())?;
        self.settle(alloc, rule)?;
        Ok(())
    }

    fn put_rule(&mut self, line: ScriptLine) -> Result<(), LineError>
        ensures { Steps result self.new (put self.old (form.Rule line)) }
    {
        if !self.stage.may_reply() {
            drop(line);
            return Err(LineError::Refused);
        }
        self.rules.push(line)?;
        Ok(())
    }

    fn put_question(&mut self, question: Question) -> Result<(), LineError>
        ensures { Steps result self.new (put self.old (form.Question question)) }
    {
        pass(
            self.stage.may_ask()
                && self.questions.len() < MOST_QUESTIONS
                && is_short(self.written.items(), &question),
        )?;
        self.questions.push(question)?;
        self.stage = Stage::Asked;
        Ok(())
    }

    fn put_turn(&mut self, turn: Turn) -> Result<(), LineError>
        ensures { Steps result self.new (put self.old (form.Turn turn)) }
    {
        pass(
            self.stage.may_turn()
                && self.turns.len() < MOST_TURNS
                && last_moment(self.turns.items()) <= turn.moment,
        )?;
        self.turns.push(turn)?;
        self.stage = Stage::Turned;
        Ok(())
    }

    fn put(&mut self, alloc: Global, form: Form) -> Result<(), LineError>
        ensures { Steps result self.new (put self.old form) }
    {
        let stage = self.stage;
        match form {
            Form::Head => self.advance(stage.may_head(), Stage::Headed),
            Form::Root(ip) => self.put_root(ip),
            Form::Option(line) => self.put_option(line),
            Form::Patience(patience) => self.put_patience(patience),
            Form::ToldScript => self.advance(stage.may_tell(), Stage::Scripted),
            Form::Reply(rule) => self.put_reply(alloc, rule),
            Form::Rule(line) => self.put_rule(line),
            Form::Question(question) => self.put_question(question),
            Form::Turn(turn) => self.put_turn(turn),
            Form::End => self.advance(stage.may_end(), Stage::Ended),
        }
    }

    /// Takes the next line. After an error the draft is of no use.
    pub fn take(&mut self, alloc: Global, line: &[u8]) -> Result<(), LineError>
        ensures { Steps result self.new (taken self.old line.now) }
    {
        match self.pending.take() {
            Some(open) => {
                let entry = record_line(alloc, line)?;
                let open = add(open, entry)?;
                self.settle(alloc, open)?;
                Ok(())
            }
            None => {
                let form = form_line(alloc, line)?;
                self.put(alloc, form)
            }
        }
    }

    /// Takes the next line, which comes after those of the upstream.
    pub fn take_late(&mut self, alloc: Global, line: &[u8]) -> Result<(), LineError>
        ensures { Steps result self.new (late self.old line.now) }
    {
        let form = form_line(alloc, line)?;
        let form = late_form(form)?;
        self.put(alloc, form)
    }
}
