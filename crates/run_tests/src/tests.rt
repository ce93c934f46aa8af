//! Whole runs over files and a sink in memory, and the first steps over those of the system.
ghost use Rattle.std.specs.Prelude.{◌≡◌, Some, is_some, IsTrue, map, string_bytes};
ghost use Rattle.std.specs.List.{list_all};
ghost use Rattle.fuota_run.specs.Memory.{held_by};
ghost use Rattle.fuota_run.specs.Ending.{HoldsForm};

use crate::common::IMAGE;
use fuota_run::*;
use std::alloc::Global;
use std::process::Abort;
use std::test::*;

const START: &str = "fuota 1\nimage 13 0\ndevice 1 c 1 0 0 00000000000000000000000000000000\n";

const EVENTS: &str =
    "ask 1\ndown 1 1\nup 1\nask 1\ndown 2 1\nup 2\nfrag\nfrag\nfrag\nfrag\ndown 6 1\ndown 3 1\ndown 3 1\ndown 5 1\ndown 4 1\nend\n";

const REPORT: &str =
    "fuota report 1\nimage 52 fragments 4 size 13 padding 0 parity 0\ndevice 1 status clock 0 token 0 running 0 next valid 2\ncounts deaf 0 refused 0 full 0 dropped 0\nsession 0 received 5 missing 0 complete at 18 same\nend\n";

static WORDS: [&str; 4] = ["fuota", "campaign", "image", "script"];

/// What is written where the words are no form.
const USAGE: &str =
    "usage: fuota campaign IMAGE SCRIPT, recover IMAGE SCRIPT DEVICE, replay FILE, decode PORT DIR FILE, generate SEED, capture FILE, campaigns IMAGE IMAGE SCRIPT\n";

/// What is outside a run: its two files, the second one in two parts, the number of the call that fails on each side (0 for
/// none), and the room of its sink.
#[derive(Clone, Copy)]
struct Outside<'a, 'b> {
    image: &'a [u8],
    start: &'b str,
    events: &'static str,
    read_fails: u64,
    write_fails: u64,
    room: u32,
}

const SOUND: Outside<'static, 'static> = Outside {
    image: &IMAGE,
    start: START,
    events: EVENTS,
    read_fails: 0,
    write_fails: 0,
    room: 4096,
};

fn text_of(rt: &impl Abort, alloc: Global, text: &str) -> String {
    match format!(in alloc; "{text}") {
        Ok(text) => text,
        Err(_) => panic!(rt; "no memory"),
    }
}

fn bytes_of(rt: &impl Abort, alloc: Global, bytes: &[u8]) -> Vec<u8> {
    match bytes.to_vec(alloc) {
        Ok(bytes) => bytes,
        Err(_) => panic!(rt; "no memory"),
    }
}

/// The script of a run.
fn script_of(rt: &impl Abort, alloc: Global, outside: &Outside) -> Vec<u8> {
    match format!(in alloc; "{}{}", outside.start, outside.events) {
        Ok(script) => script.into_bytes(),
        Err(_) => panic!(rt; "no memory"),
    }
}

/// A file under a name, after the others.
fn adds(
    rt: &impl Abort,
    alloc: Global,
    files: &mut Vec<(String, Vec<u8>)>,
    name: &str,
    bytes: Vec<u8>,
) {
    assert!(rt; files.push((text_of(rt, alloc, name), bytes)).is_ok());
}

/// The number of the one call that fails.
fn failing(rt: &impl Abort, alloc: Global, call: u64) -> Vec<u64> {
    match [call].to_vec(alloc) {
        Ok(calls) => calls,
        Err(_) => panic!(rt; "no memory"),
    }
}

/// The two files, and after them an empty one under each word, found where the two have other names.
fn files(rt: &impl Abort, alloc: Global, words: &[&str], outside: &Outside) -> MemFiles {
    let mut files = Vec::new(alloc);
    adds(
        rt,
        alloc,
        &mut files,
        "image",
        bytes_of(rt, alloc, outside.image),
    );
    adds(
        rt,
        alloc,
        &mut files,
        "script",
        script_of(rt, alloc, outside),
    );
    for word in words {
        adds(rt, alloc, &mut files, word, Vec::new(alloc));
    }
    MemFiles::new(files, failing(rt, alloc, outside.read_fails))
}

/// Runs the words; there are files for all of them.
fn run_held(
    alloc: Global,
    words: &[String],
    files: &mut MemFiles,
    sink: &mut MemSink,
) -> Option<Status> {
    if all_held(files, words) {
        Some(run(alloc, words, files, sink))
    } else {
        None
    }
}

/// Whether there are files of all words, those of the names that are asked for among them.
fn all_held(files: &MemFiles, words: &[String]) -> bool
    ensures { IsTrue result
        → HoldsForm (Some (held_by files.now.files)) (map string_bytes words.now) }
{
    names_are_words();
    are_held(files, words)
}

fn are_held(files: &MemFiles, words: &[String]) -> bool
    ensures { result
        ≡ list_all (λ word. is_some (held_by files.now.files (string_bytes word))) words.now }
{
    words.iter().all(|word| files.holds(word))
}

/// The words as a run takes them.
fn owned(rt: &impl Abort, alloc: Global, words: &[&str]) -> Vec<String> {
    let mut owned = Vec::new(alloc);
    for word in words {
        assert!(rt; owned.push(text_of(rt, alloc, word)).is_ok());
    }
    owned
}

fn sink(rt: &impl Abort, alloc: Global, room: u32, fails: Vec<u64>) -> MemSink {
    match MemSink::reserve(alloc, room, fails) {
        Ok(sink) => sink,
        Err(_) => panic!(rt; "no memory"),
    }
}

/// Runs the words, and compares the status and what was written.
fn ends(
    rt: &impl Abort,
    alloc: Global,
    words: &[&str],
    outside: &Outside,
    status: Status,
    text: &str,
) {
    let mut sink = sink(
        rt,
        alloc,
        outside.room,
        failing(rt, alloc, outside.write_fails),
    );
    assert!(rt; ended(rt, alloc, words, outside, &mut sink) == status);
    assert!(rt; sink.bytes() == text.as_bytes());
    drop(sink);
}

/// How a run of the words ends; there are files for all of them.
fn ended(
    rt: &impl Abort,
    alloc: Global,
    words: &[&str],
    outside: &Outside,
    sink: &mut MemSink,
) -> Status {
    let owned = owned(rt, alloc, words);
    let mut files = files(rt, alloc, words, outside);
    let ended = run_held(alloc, &owned, &mut files, sink);
    drop(files);
    drop(owned);
    match ended {
        Some(status) => status,
        None => panic!(rt; "a file is not there"),
    }
}

/// `IMAGE` with another last byte.
fn changed() -> [u8; 52] {
    let mut image = IMAGE;
    image[51] = b'd';
    image
}

/// The first 20 bytes of a report.
const CUT: &str = "fuota report 1\nimage";

#[test]
fn a_run_ends_with_its_status_and_text(rt: HostRuntime) {
    ends(&rt, rt.alloc(), &WORDS, &SOUND, Status::Done, REPORT);
    ends(&rt, rt.alloc(), &WORDS[..1], &SOUND, Status::Usage, USAGE);
    let cut = Outside { room: 20, ..SOUND };
    ends(&rt, rt.alloc(), &WORDS, &cut, Status::WriteFault, CUT);
}

#[test]
fn a_run_ends_where_a_file_is_refused(rt: HostRuntime) {
    let unended = Outside {
        events: "",
        ..SOUND
    };
    let text = "line 4 syntax\n";
    ends(
        &rt,
        rt.alloc(),
        &WORDS,
        &unended,
        Status::ScriptRefused,
        text,
    );
    let other = Outside {
        image: &changed(),
        ..SOUND
    };
    let text = "image refused\n";
    ends(&rt, rt.alloc(), &WORDS, &other, Status::ImageRefused, text);
}

const FOUR_ROWS: &str =
    "fuota 1\nimage 13 4\ndevice 1 c 1 4 0 00000000000000000000000000000000\nat 1000\n";

/// A run in which the call of each side with this number fails, 0 for none.
fn fails(
    rt: &impl Abort,
    alloc: Global,
    read_fails: u64,
    write_fails: u64,
    status: Status,
    text: &str,
) {
    let outside = Outside {
        read_fails,
        write_fails,
        ..SOUND
    };
    ends(rt, alloc, &WORDS, &outside, status, text);
}

#[test]
fn each_call_outside_may_fail(rt: HostRuntime) {
    for call in 1..=6u64 {
        fails(&rt, rt.alloc(), call, 0, Status::ReadFault, "read fault\n");
    }
    fails(&rt, rt.alloc(), 0, 1, Status::WriteFault, "");
    fails(&rt, rt.alloc(), 0, 2, Status::WriteFault, REPORT);
}

/// The update of a device to its end: the file is whole at line 22, and runs after the reboot.
const UPDATE: &str =
    "ask 1\ndown 1 1\nup 1\nask 1\ndown 2 1\nup 2\nfrag\nfrag\nfrag\nfrag\nfrag\nfrag\nfrag\nfrag\ndown 3 1\ndown 5 1\ndown 9 1\ndown 10 1\nask 1\ndown 11 1\nup 3\nask 1\ndown 12 1\nup 4\nask 1\ndown 13 1\nup 5\nask 1\ndown 14 1\nup 6\nend\n";

const UPDATED: &str =
    "fuota report 1\nimage 52 fragments 4 size 13 padding 0 parity 4\ndevice 1 updated clock 0 token 0 running 2 next none\ncounts deaf 0 refused 0 full 0 dropped 0\nsession 0 received 4 missing 0 complete at 22 same\nend\n";

/// The numbers of the calls that fail, the room of the sink, and the result.
static UPDATES: [(u64, u64, u32, Status, &str); 24] = [
    (0, 0, 4096, Status::Done, UPDATED),
    (7, 3, 4096, Status::Done, UPDATED),
    (1, 0, 4096, Status::ReadFault, "read fault\n"),
    (2, 0, 4096, Status::ReadFault, "read fault\n"),
    (3, 0, 4096, Status::ReadFault, "read fault\n"),
    (4, 0, 4096, Status::ReadFault, "read fault\n"),
    (5, 0, 4096, Status::ReadFault, "read fault\n"),
    (6, 0, 4096, Status::ReadFault, "read fault\n"),
    (0, 1, 4096, Status::WriteFault, ""),
    (0, 2, 4096, Status::WriteFault, UPDATED),
    (0, 0, 20, Status::WriteFault, CUT),
    (1, 1, 4096, Status::WriteFault, ""),
    (2, 1, 4096, Status::WriteFault, ""),
    (3, 1, 4096, Status::WriteFault, ""),
    (4, 1, 4096, Status::WriteFault, ""),
    (5, 1, 4096, Status::WriteFault, ""),
    (6, 1, 4096, Status::WriteFault, ""),
    (1, 2, 4096, Status::WriteFault, "read fault\n"),
    (2, 2, 4096, Status::WriteFault, "read fault\n"),
    (3, 2, 4096, Status::WriteFault, "read fault\n"),
    (4, 2, 4096, Status::WriteFault, "read fault\n"),
    (5, 2, 4096, Status::WriteFault, "read fault\n"),
    (6, 2, 4096, Status::WriteFault, "read fault\n"),
    (6, 0, 5, Status::WriteFault, "read "),
];

/// An update in which the call of each side with this number fails; after the last call, none fails.
#[test]
fn an_update_says_what_failed(rt: HostRuntime) {
    for (read_fails, write_fails, room, status, text) in &UPDATES {
        let outside = Outside {
            start: FOUR_ROWS,
            events: UPDATE,
            read_fails: *read_fails,
            write_fails: *write_fails,
            room: *room,
            ..SOUND
        };
        ends(&rt, rt.alloc(), &WORDS, &outside, *status, text);
    }
}

const PAIR: &str =
    "fuota 2\nimage a 52 0 0\nimage b 26 0 1\ndevice 1 a c 1 0 0 00000000000000000000000000000000\ndevice 2 b c 1 0 0 00000000000000000000000000000000\n";

/// Device 1 hears the fragment of its own server at line 14; device 2 hears it first, and drops it.
const OF_PAIR: &str =
    "ask 1\ndown a1 1\nup a1\nask 1\ndown a2 1\nup a2\nfrag a\ndown a3 2\ndown a3 1\nend\n";

static CAMPAIGNS: [&str; 5] = ["fuota", "campaigns", "image", "image", "script"];

/// Both campaigns have the same image.
#[test]
fn each_call_of_two_campaigns_may_fail(rt: HostRuntime) {
    for call in 1..=9u64 {
        let outside = Outside {
            read_fails: call,
            start: PAIR,
            events: OF_PAIR,
            ..SOUND
        };
        let text = "read fault\n";
        ends(
            &rt,
            rt.alloc(),
            &CAMPAIGNS,
            &outside,
            Status::ReadFault,
            text,
        );
    }
}

#[test]
fn the_system_has_no_such_file(rt: HostRuntime) {
    let mut files = StdFiles::new(&rt);
    assert!(rt; files.choose("no such file").is_err());
    let mut sink = StdSink::new(&rt);
    assert!(rt; sink.write(&[]) == Ok(0));
    assert!(rt; sink.finish().is_ok());
}

/// An image and another file that come in pieces of at most so many bytes.
#[derive(Drop)]
struct InPieces<'a> {
    lines: &'a [u8],
    most: usize,
    rest: &'a [u8],
    chosen: bool,
}

impl<'a> Files for InPieces<'a> {
    ghost use Rattle.std.specs.Prelude.{None};

    ghost held = { λ f. None };

    ghost left = { λ f. None };

    ghost chosen = { λ f. f.chosen };

    ghost faults = { λ f. 0 };

    fn choose(&mut self, name: &str) -> Result<(), Failed> {
        self.rest = if name == "image" { &IMAGE } else { self.lines };
        self.chosen = true;
        Ok(())
    }

    fn read(&mut self, buf: &mut [u8]) -> Result<usize, Failed> {
        let count = self.most.min(self.rest.len()).min(buf.len());
        let (front, behind) = self.rest.split_at(count);
        buf[..count].copy_from_slice(front);
        self.rest = behind;
        Ok(count)
    }
}

/// Runs the words over these lines in pieces of at most so many bytes, and compares the status and what was written.
fn says_in_pieces(
    rt: &impl Abort,
    alloc: Global,
    words: &[&str],
    lines: &[u8],
    most: usize,
    status: Status,
    text: &str,
) {
    let owned = owned(rt, alloc, words);
    let mut files = InPieces {
        lines,
        most,
        rest: &[],
        chosen: false,
    };
    let mut sink = sink(rt, alloc, 4096, Vec::new(alloc));
    assert!(rt; run(alloc, &owned, &mut files, &mut sink) == status);
    assert!(rt; sink.bytes() == text.as_bytes());
    drop(sink);
    drop(owned);
}

/// The same in pieces of 1 to 40 bytes.
fn says_in_all_pieces(
    rt: &impl Abort,
    alloc: Global,
    words: &[&str],
    lines: &[u8],
    status: Status,
    text: &str,
) {
    for most in 1..41usize {
        says_in_pieces(rt, alloc, words, lines, most, status, text);
    }
}

/// What is written is the same, whatever pieces the files come in.
#[test]
fn pieces_make_the_report_of_the_whole(rt: HostRuntime) {
    let lines = script_of(&rt, rt.alloc(), &SOUND);
    says_in_all_pieces(&rt, rt.alloc(), &WORDS, &lines, Status::Done, REPORT);
    drop(lines);
}

static DECODE: [&str; 5] = ["fuota", "decode", "201", "down", "capture"];

static REPLAY: [&str; 3] = ["fuota", "replay", "capture"];

static CAPTURE: [&str; 3] = ["fuota", "capture", "capture"];

#[test]
fn pieces_make_the_texts_of_the_whole(rt: HostRuntime) {
    says_in_all_pieces(
        &rt,
        rt.alloc(),
        &DECODE,
        b"00010A\n\n020004",
        Status::Done,
        "line 1\nPackageVersionReq\nFragSessionStatusReq index=1 all=0\nline 2\nline 3\nrefused 3 short\nend\n",
    );
    says_in_all_pieces(
        &rt,
        rt.alloc(),
        &REPLAY,
        b"replay 1 2\n0200040001000000000000\n08070066\n08080011\n08010011\n08030033\n",
        Status::Done,
        "fuota replay 1\ncounts deaf 0 refused 0 full 0 dropped 0\nsession 0 received 4 missing 0 complete at 6\nfile 11223344\nend\n",
    );
    says_in_all_pieces(
        &rt,
        rt.alloc(),
        &CAPTURE,
        b"capture 1 0\n{\"port\":201,\"dir\":\"down\",\"hex\":\"0200010001000000000000\"}\n{\"port\":201,\"dir\":\"down\",\"hex\":\"0801005a\",\"snr\":-75e-1}",
        Status::Done,
        "fuota capture 1\nline 2 201 down\nFragSessionSetupReq index=0 mask=0 nbfrag=1 fragsize=1 algo=0 delay=0 padding=0 descriptor=00000000\nline 3 201 down\nDataFragment index=0 n=1 bytes=5a\ncounts deaf 0 refused 0 full 0 dropped 0\nsession 0 received 1 missing 0 complete at 3\nfile 5a\nend\n",
    );
}

/// A line of 602 digits after one of two, and a third one.
fn long_lines() -> [u8; 609] {
    let mut lines = [b'0'; 609];
    lines[2] = b'\n';
    lines[605..].copy_from_slice(b"\nzz\n");
    lines
}

#[test]
fn pieces_make_the_refusals_of_the_whole(rt: HostRuntime) {
    let refused = Status::ScriptRefused;
    let text = "line 2 limit\n";
    says_in_all_pieces(&rt, rt.alloc(), &DECODE, &long_lines(), refused, text);
    let lines = b"replay 1 2\n0200040001000000000000\n0807006\n08080011\nzz";
    let text = "line 3 syntax\n";
    says_in_all_pieces(&rt, rt.alloc(), &REPLAY, lines, refused, text);
}

static REPLAY_SCRIPT: [&str; 3] = ["fuota", "replay", "script"];

/// A replay of a line that is refused, in which this call fails, 0 for none.
fn replays(rt: &impl Abort, alloc: Global, read_fails: u64, status: Status, text: &str) {
    let outside = Outside {
        start: "zz\n",
        events: "",
        read_fails,
        ..SOUND
    };
    ends(rt, alloc, &REPLAY_SCRIPT, &outside, status, text);
}

/// A replay of so many zero bytes.
fn replays_zeros(rt: &impl Abort, alloc: Global, count: usize, status: Status, text: &str) {
    match vec![in alloc; 0u8; count] {
        Ok(lines) => {
            says_in_pieces(rt, alloc, &REPLAY_SCRIPT, &lines, 4096, status, text);
            drop(lines);
        }
        Err(_) => panic!(rt; "no memory"),
    }
}

/// A file is read to its end, or to one byte more than its limit, before a refused line of it is answered.
#[test]
fn faults_come_before_a_refused_line(rt: HostRuntime) {
    replays(&rt, rt.alloc(), 0, Status::ScriptRefused, "line 1 syntax\n");
    for call in 1..=3u64 {
        replays(&rt, rt.alloc(), call, Status::ReadFault, "read fault\n");
    }
    let long = Status::TooLong(1_048_577);
    replays_zeros(&rt, rt.alloc(), 1_048_577, long, "too long 1048577\n");
    replays_zeros(
        &rt,
        rt.alloc(),
        1_048_576,
        Status::ScriptRefused,
        "line 1 limit\n",
    );
}
