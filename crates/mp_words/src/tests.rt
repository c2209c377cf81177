// Lines and their answers, from a script that reads the rules of a line on its own.
ghost use Rattle.std.specs.Prelude.{◌<◌, length, IfOk, vec_len};

mod lines;

use crate::{Command, DumpKind, FileKind, Job, What, WordFail, kind_of, read_words};
use lines::LINES;
use std::alloc::Global;
use std::fmt;
use std::test::Fail;
use track_ops::Choice;

impl fmt::Display for Job {
    fn fmt<W: fmt::Write>(&self, f: &mut fmt::Formatter<W>) -> fmt::Result {
        match self {
            Job::Edit {
                commands,
                out,
                out_command,
                window,
            } => {
                write!(f, "edit {out} {out_command} {window}")?;
                for command in commands {
                    write!(f, "; {command}")?;
                }
                Ok(())
            }
            Job::Dump { kind, name } => match kind {
                DumpKind::Info => write!(f, "info {name}"),
                DumpKind::Timeline => write!(f, "timeline {name}"),
                DumpKind::Json => write!(f, "json {name}"),
            },
            Job::Gen { n } => write!(f, "gen {n}"),
        }
    }
}

impl fmt::Display for Command {
    fn fmt<W: fmt::Write>(&self, f: &mut fmt::Formatter<W>) -> fmt::Result {
        let (place, what) = (self.place, &self.what);
        write!(f, "{place} {what}")
    }
}

impl fmt::Display for What {
    fn fmt<W: fmt::Write>(&self, f: &mut fmt::Formatter<W>) -> fmt::Result {
        match self {
            What::Add { name, choice, rate } => {
                write!(f, "add {name} ")?;
                match *choice {
                    Choice::All => f.write_str("all ")?,
                    Choice::Number(number) => write!(f, "#{number} ")?,
                    Choice::Video => f.write_str("video ")?,
                    Choice::Audio => f.write_str("audio ")?,
                }
                match rate {
                    None => f.write_str("-"),
                    Some(rate) => {
                        let (num, den) = (rate.num, rate.den);
                        write!(f, "{num}/{den}")
                    }
                }
            }
            What::Cat { name } => write!(f, "cat {name}"),
            What::Rem { number } => write!(f, "rem {number}"),
            What::Delay { number, ms } => write!(f, "delay {number} {ms}"),
            What::Cut { from, to } => {
                let (from_n, from_d, to_n, to_d) = (from.n, from.d, to.n, to.d);
                write!(f, "cut {from_n}/{from_d} {to_n}/{to_d}")
            }
            What::TrackScale { number, scale } => write!(f, "tscale {number} {scale}"),
            What::MovieScale { scale } => write!(f, "mscale {scale}"),
            What::Lang { number, letters } => {
                let [a, b, c] = *letters;
                let (a, b, c) = (char::from(a), char::from(b), char::from(c));
                write!(f, "lang {number} {a}{b}{c}")
            }
            What::Enabled { number, on: true } => write!(f, "enable {number}"),
            What::Enabled { number, on: false } => write!(f, "disable {number}"),
        }
    }
}

// The words that strokes divide, fewer than 200.
fn words(alloc: Global, line: &str) -> Result<Vec<String>, Fail>
    ensures { IfOk result (λ w. vec_len w < 200) }
{
    let mut words = Vec::new(alloc);
    for word in line.split('|') {
        words.push(String::from_str(alloc, word)?)?;
    }
    if words.len() < 200 {
        Ok(words)
    } else {
        Err(Fail::from("too many words"))
    }
}

// What a line is answered.
fn answer(alloc: Global, line: &[String]) -> Result<String, Fail>
    requires { length line.now < 200 }
{
    match read_words(alloc, line) {
        Ok(job) => Ok(job.to_string(alloc)?),
        Err(WordFail::Words { word, kind }) => Ok(format!(in alloc; "word {word} {kind:?}")?),
        Err(WordFail::NoMemory) => Err(Fail::from("no memory")),
    }
}

#[test]
fn lines_are_jobs_or_have_a_first_fault(rt: HostRuntime) -> Result<(), Fail> {
    let alloc = rt.alloc();
    for row in LINES.lines() {
        let (line, wanted) = row.split_once(" => ").ok_or("a row without an answer")?;
        let got = answer(alloc, &words(alloc, line)?)?;
        assert_eq!(rt; got.as_str(), wanted, "{line}");
    }
    assert_eq!(rt; answer(alloc, &[])?.as_str(), "word 0 Empty");
    Ok(())
}

#[test]
fn kinds_of_files(rt: HostRuntime) {
    let rows = [
        ("a.mp4", Some(FileKind::Mp4)),
        ("a.M4a", Some(FileKind::Mp4)),
        (".m4v", Some(FileKind::Mp4)),
        ("a.h264", Some(FileKind::Avc)),
        ("a.264", Some(FileKind::Avc)),
        ("a.aVc", Some(FileKind::Avc)),
        ("a.aac", Some(FileKind::Adts)),
        ("a.ADTS", Some(FileKind::Adts)),
        ("a.nhnt", Some(FileKind::Nhnt)),
        ("a.media", None),
        ("mp4", None),
        ("", None),
    ];
    for (name, kind) in rows {
        assert_eq!(rt; kind_of(name), kind, "{name}");
    }
}
