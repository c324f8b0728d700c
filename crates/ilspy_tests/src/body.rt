// The command `body`: what it writes for each file, and with which status.

ghost use Rattle.std.specs.Prelude.{◌≤◌, length};

use cil_lone::lone;
use cil_meaning::{LoneState, LoneStepped, lone_step};
use cs_meaning::lone_exec;
use dc_base::{NoMemory, Stack, Text};
use dc_outside::{MemShelf, MemSink, OpenGate};
use ilspy_body::{code_can_be_flattened, flat};
use ilspy_cli::{Status, run};
use std::alloc::Global;
use std::process::Abort;
use std::test::Fail;
use std::thread::Threads;

pub(crate) const SUM: [u8; 5] = [0x12, 0x02, 0x03, 0x58, 0x2A];

pub(crate) const SUM_TEXT: &str =
    "static int M(int a0, int a1, int a2, int a3)\n{\n    int v0 = a0;\n    int v1 = a1;\n    int v2 = v0 + v1;\n    return v2;\n}\n";

const USAGE: &str =
    "usage: ilspy body FILE | show ASM | verify ASM REFS | decompile ASM REFS [--workers N] | check ASM REFS SOURCE | make SEED METHODS\n";

/// The words of a command line.
pub(crate) fn words_of(alloc: Global, words: &[&str]) -> Result<Vec<Text>, NoMemory> {
    let mut all = Vec::new(alloc);
    for word in words {
        all.push(Text::of(alloc, word)?)?;
    }
    Ok(all)
}

/// A shelf with this one file, named `f`.
pub(crate) fn shelf_of(alloc: Global, file: &[u8], fails: &[u32]) -> Result<MemShelf, NoMemory> {
    let mut files = Vec::new(alloc);
    files.push((Text::of(alloc, "f")?, Vec::from_slice(alloc, file)?))?;
    Ok(MemShelf::of(files, Vec::from_slice(alloc, fails)?))
}

/// Runs on the words over that shelf, and compares the status and what is written.
pub(crate) fn check<R: Threads + Sync + Abort>(
    rt: &R,
    alloc: Global,
    words: &[&str],
    file: &[u8],
    status: Status,
    text: &str,
) -> Result<(), NoMemory> {
    let words = words_of(alloc, words)?;
    let mut shelf = shelf_of(alloc, file, &[])?;
    let mut out = MemSink::of(alloc, 4096, Vec::new(alloc));
    out.reserve(1_048_576)?;
    let got = run(rt, alloc, &words, &mut shelf, &mut out, &OpenGate);
    assert_eq!(rt; got, status, "{text}");
    assert_eq!(rt; out.written(), text.as_bytes(), "{text}");
    Ok(())
}

#[test]
fn a_lone_body_is_written_as_a_method(rt: HostRuntime) -> Result<(), Fail> {
    let alloc = rt.alloc();
    let words = ["ilspy", "body", "f"];
    check(&rt, alloc, &words, &SUM, Status::Done, SUM_TEXT)?;
    let minus_five =
        "static int M(int a0, int a1, int a2, int a3)\n{\n    int v0 = -5;\n    return v0;\n}\n";
    check(
        &rt,
        alloc,
        &words,
        &[0x0E, 0x1F, 0xFB, 0x2A],
        Status::Done,
        minus_five,
    )?;
    let least =
        "static int M(int a0, int a1, int a2, int a3)\n{\n    int v0 = -2147483648;\n    int v1 = a3;\n    int v2 = v0 * v1;\n    int v3 = 8;\n    int v4 = v2 - v3;\n    return v4;\n}\n";
    let code = [0x2A, 0x20, 0, 0, 0, 0x80, 0x05, 0x5A, 0x1E, 0x59, 0x2A];
    check(&rt, alloc, &words, &code, Status::Done, least)?;
    Ok(())
}

#[test]
fn a_file_that_is_no_lone_body_is_refused(rt: HostRuntime) -> Result<(), Fail> {
    let alloc = rt.alloc();
    let words = ["ilspy", "body", "f"];
    let files: [(&[u8], &str); 9] = [
        (
            &[0x12, 0x02, 0x03, 0x58],
            "refused: BadBody Truncated at 4\n",
        ),
        (&[0x0E, 0x02, 0x5B, 0x2A], "refused: NotYet 5b at 2\n"),
        (&[], "refused: BadBody BadHeader at 0\n"),
        (&[0x02, 0x2A], "refused: BadBody BadHeader at 0\n"),
        (&[0x0A, 0x58, 0x2A], "refused: BadBody Underflow at 1\n"),
        (&[0x0A, 0x02, 0x03], "refused: BadBody BadReturn at 3\n"),
        (
            &[0x0A, 0x02, 0x2A, 0x00],
            "refused: BadBody Trailing at 3\n",
        ),
        (&[0x0A, 0x02, 0x1F], "refused: BadBody Truncated at 2\n"),
        (
            &[0x0E, 0x02, 0x2A, 0x02],
            "refused: BadBody BadReturn at 2\n",
        ),
    ];
    for (file, line) in files {
        check(&rt, alloc, &words, file, Status::Refused, line)?;
    }
    let longest = "refused: NotYet 06 at 1\n";
    check(&rt, alloc, &words, &[0x06; 64], Status::Refused, longest)?;
    check(
        &rt,
        alloc,
        &words,
        &[0x06; 65],
        Status::Refused,
        "refused: TooBig f\n",
    )?;
    Ok(())
}

#[test]
fn words_out_of_form_are_answered_by_the_usage(rt: HostRuntime) -> Result<(), Fail> {
    let alloc = rt.alloc();
    let lines: [&[&str]; 8] = [
        &[],
        &["ilspy"],
        &["ilspy", "body"],
        &["ilspy", "body", "-f"],
        &["ilspy", "body", "f", "f"],
        &["ilspy", "show"],
        &["ilspy", "show", "a", "b"],
        &["ilspy", "verify", "shop.dll"],
    ];
    for words in lines {
        check(&rt, alloc, words, &SUM, Status::Usage, USAGE)?;
    }
    let missing: [(&[&str], &str); 2] = [
        (&["ilspy", "body", "g"], "fault: cannot read g\n"),
        (&["ilspy", "show", ""], "fault: cannot read \n"),
    ];
    for (words, line) in missing {
        check(&rt, alloc, words, &SUM, Status::ReadFault, line)?;
    }
    Ok(())
}

// What the machine returns on the code of the file, by steps from its first instruction.
fn returned_by_steps(alloc: Global, file: &[u8], args: [i32; 4]) -> Result<Option<i32>, NoMemory>
    requires { length file.now ≤ 64 }
{
    let Ok(code) = lone(alloc, file) else {
        return Ok(None);
    };
    let mut state = LoneState {
        at: 1,
        stack: Stack::new(alloc),
        args,
    };
    for _ in &code {
        match lone_step(&code, state)? {
            LoneStepped::Next(next) => state = next,
            LoneStepped::Done(value) => return Ok(Some(value)),
            LoneStepped::Stuck => return Ok(None),
        }
    }
    Ok(None)
}

// What the flat form of the file's code returns.
fn returned_by_flat(alloc: Global, file: &[u8], args: [i32; 4]) -> Result<Option<i32>, NoMemory>
    requires { length file.now ≤ 64 }
{
    match lone(alloc, file) {
        Ok(code) => {
            code_can_be_flattened();
            let body = flat(alloc, code.as_slice())?;
            Ok(Some(lone_exec(alloc, &body, args)?))
        }
        Err(_) => Ok(None),
    }
}

#[test]
fn the_code_and_its_flat_form_return_the_same(rt: HostRuntime) -> Result<(), Fail> {
    let alloc = rt.alloc();
    let args = [2, 3, 0, 0];
    assert_eq!(rt; returned_by_steps(alloc, &SUM, args)?, Some(5));
    assert_eq!(rt; returned_by_flat(alloc, &SUM, args)?, Some(5));
    Ok(())
}
