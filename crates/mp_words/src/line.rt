// The words of a line, read from left to right.
ghost use Rattle.std.specs.Prelude.{◌≡◌, ◌<◌, ◌≤◌, ◌*◌, ◌^◌, length, map, string_bytes, All, IfOk};
ghost use Rattle.std.specs.List.{list_any};
ghost use Rattle.mp_words.specs.Answers.{GivesJob, GivesLine, job_record};
ghost use Rattle.mp_words.specs.Jobs.{IsCommand, commands_of};
ghost use Rattle.mp_words.specs.Line.{job, nothing, options_from, reads};

use crate::argument::asked_by;
use crate::fault::{WordFail, WordKind};
use crate::job::{Command, DumpKind, Job, What};
use crate::name::{is_mp4_name, is_read_with};
use crate::number::{number_in, number_of};
use crate::options::{LineOption, option_of};
use std::alloc::Global;
use std::marker::Model;

/// The window of a line that names none, in milliseconds.
const WINDOW: u32 = 500;

/// What has been read of a line.
#[derive(Drop)]
struct Line {
    commands: Vec<Command>,
    out: Option<String>,
    out_command: u32,
    window: u32,
    alone: Option<Job>,
}

impl Model for Line {
    ghost use Rattle.std.specs.Prelude.{◌*◌, ◌<◌, ◌^◌, string_bytes, option_map};
    ghost use Rattle.mp_words.specs.Answers.{job_record};
    ghost use Rattle.mp_words.specs.Line.{LineRecord};

    ghost Value = { LineRecord };

    ghost view = { λ l. record {
      commands = l.commands.items;
      out = option_map string_bytes l.out;
      out_command = l.out_command;
      window = l.window;
      alone = option_map job_record l.alone;
    } };

    // The word behind `-out` has a number.
    ghost invariant = { λ l. 2 * l.out_command < 2 ^ 32 };
}

/// Reads the words of a line.
///
/// `WordFail::Words` exactly where the line is no job, with the word that is at fault first.
pub fn read_words(alloc: Global, words: &[String]) -> Result<Job, WordFail>
    requires { length words.now < 2 ^ 32 }
    ensures job { GivesJob result (job (map string_bytes words.now)) }
    // A job has at most one command for two words.
    ensures few { IfOk result (λ job. 2 * length (commands_of (job_record job)) ≤ length words.now) }
    // Each command is of an option and its argument.
    ensures each { IfOk result (λ job. All (IsCommand (length words.now)) (commands_of (job_record job))) }
{
    if words.is_empty() {
        return Err(fault(0, WordKind::Empty));
    }
    match read_options(alloc, words) {
        Ok(line) => line.into_job(),
        Err(fail) => Err(fail),
    }
}

/// All options of the line.
fn read_options(alloc: Global, words: &[String]) -> Result<Line, WordFail>
    requires { length words.now < 2 ^ 32 }
    ensures { GivesLine result (options_from (map string_bytes words.now) 1 nothing) }
{
    let mut line = Line::new(alloc);
    let mut at = 0;
    let mut place = 1;
    while at < words.len() {
        let word = at as u32 + 1;
        let option = match line.option_at(&words[at], place) {
            Ok(option) => option,
            Err(kind) => return Err(fault(word, kind)),
        };
        if at + 1 == words.len() {
            return Err(fault(word, WordKind::Missing));
        }
        match line.take(alloc, option, &words[at + 1], place) {
            Ok(()) => {}
            Err(fail) => return Err(fail),
        }
        at += 2;
        place += 1;
    }
    Ok(line)
}

fn fault(word: u32, kind: WordKind) -> WordFail
    ensures { result ≡ WordFail.Words word kind }
{
    WordFail::Words { word, kind }
}

/// The argument of the option of that number is refused.
fn refused(place: u32) -> WordFail
    requires { 2 * place < 2 ^ 32 }
    ensures { result ≡ WordFail.Words (2 * place) WordKind.Argument }
{
    fault(2 * place, WordKind::Argument)
}

impl Line {
    ghost use Rattle.std.specs.Prelude.{◌≡◌, ◌*◌, ◌<◌, ◌^◌, IfErr, OnOk, OnErr};
    ghost use Rattle.mp_words.specs.Answers.{GivesJob, Takes};
    ghost use Rattle.mp_words.specs.Jobs.{asked};
    ghost use Rattle.mp_words.specs.Line.{nothing, option_at, with_option, with_asked, with_dump, with_command, whole};
    ghost use Rattle.mp_words.specs.Options.{option_of};

    fn new(alloc: Global) -> Line
        ensures { result ≡ nothing }
    {
        Line {
            commands: Vec::new(alloc),
            out: None,
            out_command: 0,
            window: WINDOW,
            alone: None,
        }
    }

    /// The option of a word, by its number on the line, or what is wrong there before its argument is looked at.
    fn option_at(&self, word: &str, place: u32) -> Result<LineOption, WordKind>
        ensures { result ≡ option_at (option_of word.now) place self.now }
    {
        let Some(option) = option_of(word) else {
            return Err(WordKind::Unknown);
        };
        if self.alone.is_some() || option.stands_alone() && place != 1 {
            return Err(WordKind::Mixed);
        }
        if option.is_out() && self.out.is_some() {
            return Err(WordKind::OutTwice);
        }
        Ok(option)
    }

    /// Takes an option with its argument.
    fn take(
        &mut self,
        alloc: Global,
        option: LineOption,
        argument: &str,
        place: u32,
    ) -> Result<(), WordFail>
        requires { 2 * place < 2 ^ 32 }
        ensures { Takes result self.old self.new place (with_option option argument.now place self.old) }
    {
        match option {
            LineOption::Inter => self.take_window(argument, place),
            LineOption::Out => self.take_out(alloc, argument, place),
            LineOption::Info => self.take_dump(alloc, DumpKind::Info, argument, place),
            LineOption::Timeline => self.take_dump(alloc, DumpKind::Timeline, argument, place),
            LineOption::Json => self.take_dump(alloc, DumpKind::Json, argument, place),
            LineOption::Gen => self.take_gen(argument, place),
            _ => self.take_command(alloc, option, argument, place),
        }
    }

    fn take_window(&mut self, argument: &str, place: u32) -> Result<(), WordFail>
        requires { 2 * place < 2 ^ 32 }
        ensures { Takes result self.old self.new place (with_option LineOption.Inter argument.now place self.old) }
    {
        let Some(window) = number_of(argument.as_bytes()) else {
            return Err(refused(place));
        };
        self.window = window;
        Ok(())
    }

    fn take_out(&mut self, alloc: Global, argument: &str, place: u32) -> Result<(), WordFail>
        requires { 2 * place < 2 ^ 32 }
        ensures { Takes result self.old self.new place (with_option LineOption.Out argument.now place self.old) }
    {
        if !is_mp4_name(argument) {
            return Err(refused(place));
        }
        let Ok(out) = String::from_str(alloc, argument) else {
            return Err(WordFail::NoMemory);
        };
        self.out = Some(out);
        self.out_command = place;
        Ok(())
    }

    fn take_dump(
        &mut self,
        alloc: Global,
        kind: DumpKind,
        argument: &str,
        place: u32,
    ) -> Result<(), WordFail>
        requires { 2 * place < 2 ^ 32 }
        ensures { Takes result self.old self.new place (with_dump kind argument.now self.old) }
    {
        if !is_mp4_name(argument) {
            return Err(refused(place));
        }
        let Ok(name) = String::from_str(alloc, argument) else {
            return Err(WordFail::NoMemory);
        };
        self.alone = Some(Job::Dump { kind, name });
        Ok(())
    }

    fn take_gen(&mut self, argument: &str, place: u32) -> Result<(), WordFail>
        requires { 2 * place < 2 ^ 32 }
        ensures { Takes result self.old self.new place (with_option LineOption.Gen argument.now place self.old) }
    {
        let Some(n) = number_in(argument.as_bytes(), 50, 1_000_000) else {
            return Err(refused(place));
        };
        self.alone = Some(Job::Gen { n });
        Ok(())
    }

    fn take_command(
        &mut self,
        alloc: Global,
        option: LineOption,
        argument: &str,
        place: u32,
    ) -> Result<(), WordFail>
        requires { 2 * place < 2 ^ 32 }
        ensures { Takes result self.old self.new place (with_asked option argument.now place self.old) }
    {
        match asked_by(alloc, option, argument) {
            Ok(Some(what)) => self.push(place, what),
            Ok(None) => Err(refused(place)),
            Err(_) => Err(WordFail::NoMemory),
        }
    }

    fn push(&mut self, place: u32, what: What) -> Result<(), WordFail>
        ensures pushed { OnOk result (self.new ≡ with_command place self.old (asked what)) }
        ensures same { OnErr result (self.new ≡ self.old) }
        ensures memory { IfErr result (λ fail. fail ≡ WordFail.NoMemory) }
    {
        if self.commands.push(Command { place, what }).is_err() {
            return Err(WordFail::NoMemory);
        }
        Ok(())
    }

    /// The job of a line that has been read to its end.
    fn into_job(self) -> Result<Job, WordFail>
        ensures { GivesJob result (whole self) }
    {
        let Line {
            commands,
            out,
            out_command,
            window,
            alone,
        } = self;
        if let Some(job) = alone {
            return Ok(job);
        }
        let Some(out) = out else {
            return Err(fault(0, WordKind::NoOut));
        };
        if is_read(&commands, &out) {
            return Err(fault(2 * out_command, WordKind::SameName));
        }
        Ok(Job::Edit {
            commands,
            out,
            out_command,
            window,
        })
    }
}

/// One of the commands reads the file.
fn is_read(commands: &[Command], file: &str) -> bool
    ensures { result ≡ list_any (reads file.now) commands.now }
{
    for command in commands {
        if command.reads(file) {
            return true;
        }
    }
    false
}

impl Command {
    ghost use Rattle.std.specs.Prelude.{◌≡◌};
    ghost use Rattle.mp_words.specs.Line.{reads};

    fn reads(&self, file: &str) -> bool
        ensures { result ≡ reads file.now self.now }
    {
        match &self.what {
            What::Add { name, .. } => is_read_with(file, name),
            What::Cat { name } => file == name.as_str(),
            _ => false,
        }
    }
}
