// Lines that delay tracks and set scales, over a frame of 1024 ticks of 44,100 a second and a pair of 100 milliseconds.
use super::FRAME;
use super::pairs::{Ended, MEDIA, TABLE, refused, run};
use crate::Ending;
use mp_ports::Code;
use std::alloc::Global;
use std::process::Abort;
use std::test::Fail;

// Runs a line over the frame as `a.aac` and the pair as `n.nhnt`.
fn ended(alloc: Global, texts: &[&str]) -> Result<Ended, Fail> {
    let held = [("a.aac", FRAME), ("n.nhnt", TABLE), ("n.media", MEDIA)];
    run(alloc, texts, &held, &[])
}

// The option of that number is refused so, and nothing is written.
fn is_refused(
    rt: &impl Abort,
    alloc: Global,
    texts: &[&str],
    code: Code,
    command: u32,
) -> Result<(), Fail> {
    let got = ended(alloc, texts)?;
    assert_eq!(rt; got.ending, refused(code, command, 0, 0), "{texts:?}");
    assert_eq!(rt; got.written.len(), 0, "{texts:?}");
    Ok(())
}

// The file of so many bytes is written, and what is told of what it presents ends so.
fn presents(
    rt: &impl Abort,
    alloc: Global,
    texts: &[&str],
    length: usize,
    end: &[u8],
) -> Result<(), Fail> {
    let got = ended(alloc, texts)?;
    assert_eq!(rt; got.ending, Ending::Done, "{texts:?}");
    assert_eq!(rt; got.written.len(), length, "{texts:?}");
    let told = run(
        alloc,
        &["-timeline", "o.mp4"],
        &[("o.mp4", &got.written)],
        &[],
    )?;
    assert!(rt; told.said.ends_with(end), "{texts:?}");
    Ok(())
}

#[test]
fn a_pair_is_shown_later_or_earlier(rt: HostRuntime) -> Result<(), Fail> {
    let alloc = rt.alloc();
    // all of its 100 milliseconds, and all but one
    is_refused(
        &rt,
        alloc,
        &[
            "-add", "a.aac", "-add", "n.nhnt", "-delay", "2=-100", "-out", "o.mp4",
        ],
        Code::DelayPastEnd,
        3,
    )?;
    // two tracks without edits have 1002 bytes, a list of one segment has 36 and of two 48 (8.6.6)
    presents(
        &rt,
        alloc,
        &[
            "-add", "a.aac", "-add", "n.nhnt", "-delay", "2=-99", "-out", "o.mp4",
        ],
        1038,
        b" duration 100 language und enabled edits 1\nedit media 99 1\n\
          sample 1 size 2 decode 0 duration 50 composition 0 sync entry 1\n\
          sample 2 size 2 decode 50 duration 50 composition 50 sync entry 1\n",
    )?;
    presents(
        &rt,
        alloc,
        &[
            "-add", "a.aac", "-add", "n.nhnt", "-delay", "2=40", "-out", "o.mp4",
        ],
        1050,
        b" duration 100 language und enabled edits 2\nedit empty 40\nedit media 0 100\n\
          sample 1 size 2 decode 0 duration 50 composition 0 sync entry 1\n\
          sample 2 size 2 decode 50 duration 50 composition 50 sync entry 1\n",
    )?;
    presents(
        &rt,
        alloc,
        &[
            "-add", "a.aac", "-add", "n.nhnt", "-delay", "2=0", "-out", "o.mp4",
        ],
        1002,
        b" duration 100 language und enabled edits none\n\
          sample 1 size 2 decode 0 duration 50 composition 0 sync entry 1\n\
          sample 2 size 2 decode 50 duration 50 composition 50 sync entry 1\n",
    )
}

#[test]
fn scales_of_one_frame_are_set(rt: HostRuntime) -> Result<(), Fail> {
    let alloc = rt.alloc();
    is_refused(
        &rt,
        alloc,
        &["-add", "a.aac", "-tscale", "1=1000", "-out", "o.mp4"],
        Code::NotWhole,
        2,
    )?;
    is_refused(
        &rt,
        alloc,
        &["-add", "a.aac", "-tscale", "7=88200", "-out", "o.mp4"],
        Code::NoTrack,
        2,
    )?;
    presents(
        &rt,
        alloc,
        &["-add", "a.aac", "-tscale", "1=88200", "-out", "o.mp4"],
        578,
        b" scale 88200 samples 1 sync 1 bytes 2 duration 2048 language und enabled edits none\n\
          sample 1 size 2 decode 0 duration 2048 composition 0 sync entry 1\n",
    )?;
    // 1024/44100 of a second are 13.9 of 600 ticks, of which the header tells the next whole number
    presents(
        &rt,
        alloc,
        &["-add", "a.aac", "-mscale", "600", "-out", "o.mp4"],
        578,
        b"movie scale 600 duration 14 tracks 1\n\
          track 1 handler soun entry mp4a scale 44100 samples 1 sync 1 bytes 2 duration 1024 \
          language und enabled edits none\n\
          sample 1 size 2 decode 0 duration 1024 composition 0 sync entry 1\n",
    )?;
    // a millisecond of nothing isn't whole in 600 ticks a second
    is_refused(
        &rt,
        alloc,
        &[
            "-add", "n.nhnt", "-delay", "1=1", "-mscale", "600", "-out", "o.mp4",
        ],
        Code::NotWhole,
        3,
    )
}

#[test]
fn a_frame_is_shown_later_or_earlier(rt: HostRuntime) -> Result<(), Fail> {
    let alloc = rt.alloc();
    // 40 milliseconds and 1024/44100 of a second are whole in 441,000 ticks a second, of multiples of 1000 first
    presents(
        &rt,
        alloc,
        &["-add", "a.aac", "-delay", "1=40", "-out", "o.mp4"],
        626,
        b" scale 44100 samples 1 sync 1 bytes 2 duration 1024 language und enabled edits 2\n\
          edit empty 17640\nedit media 0 10240\n\
          sample 1 size 2 decode 0 duration 1024 composition 0 sync entry 1\n",
    )?;
    // a frame of 23.2 milliseconds, without the first one of them
    presents(
        &rt,
        alloc,
        &["-add", "a.aac", "-delay", "1=-1", "-out", "o.mp4"],
        614,
        b" duration 10240 language und enabled edits 1\nedit media 441 9799\n\
          sample 1 size 2 decode 0 duration 10240 composition 0 sync entry 1\n",
    )?;
    is_refused(
        &rt,
        alloc,
        &["-add", "a.aac", "-delay", "1=-24", "-out", "o.mp4"],
        Code::DelayPastEnd,
        2,
    )?;
    is_refused(
        &rt,
        alloc,
        &["-add", "a.aac", "-delay", "7=0", "-out", "o.mp4"],
        Code::NoTrack,
        2,
    )
}
