//! Tests of runs: what a script is answered, and how a run ends where a source or a sink fails.
use super::*;
use comb_io::{MemSink, MemSource, SureShelf, SureSink, SureSource};
use std::process::Abort;
use std::test::Fail;

/// How many bytes a read gives.
const SIZES: [usize; 3] = [1, 7, 65_536];

/// A script and its whole answer.
#[derive(Clone, Copy)]
struct Case {
    script: &'static [u8],
    out: &'static [u8],
    err: &'static [u8],
    status: Status,
}

/// The script with this answer, of which nothing is refused.
fn answered(script: &'static [u8], out: &'static [u8]) -> Case {
    Case {
        script,
        out,
        err: b"",
        status: Status::Well,
    }
}

/// The script that is refused with these lines.
fn refused(script: &'static [u8], err: &'static [u8]) -> Case {
    Case {
        script,
        out: b"",
        err,
        status: Status::SomeRefused,
    }
}

const LISTED: Case = Case {
    script: b"allstructs([S, {S = Prod(A, Union(Z, Z)), A = Union(Z, Prod(Z, Z))}, unlabelled], size = 3);",
    out: b"[Prod(Prod(Z, Z), Z), Prod(Prod(Z, Z), Z)]\n",
    err: b"",
    status: Status::Well,
};

const UNDEFINED: Case = Case {
    script: b"allstructs([S, {S = Union(Z, T)}, unlabelled], size = 1);",
    out: b"",
    err: b"line 1: error 20: no rule for T\n",
    status: Status::SomeRefused,
};

const MANY: Case = Case {
    script: b"allstructs([S, {S = Z}], size = 1);\ncount([T, {T = Prod(Z, T)}], size = 1): ;\ncount([S, {S = Sequence(Z)}, labelled], size = 3);",
    out: b"[S]\n6\n",
    err: b"line 2: error 22: rule T has no structure\n",
    status: Status::SomeRefused,
};

/// These words, as a run is given them.
fn words_of(alloc: Global, given: &[&str]) -> Result<Vec<String>, Fail> {
    let mut words = Vec::new(alloc);
    for word in given {
        words.push(String::from_str(alloc, word)?)?;
    }
    Ok(words)
}

/// Runs a script without words.
fn outcome_of<S: Source, O: Sink, E: Sink>(
    alloc: Global,
    input: &mut S,
    out: &mut O,
    err: &mut E,
) -> Status {
    let words = Vec::new(alloc);
    run(alloc, &words, input, &mut SureShelf::new(&[]), out, err)
}

/// Sees that these words and a script have their answer, however many bytes a read gives.
fn sees_to(rt: &impl Abort, alloc: Global, words: &Vec<String>, case: Case) -> Result<(), Fail> {
    for most in SIZES {
        assert!(rt; most > 0);
        let mut input = MemSource::new(alloc, case.script, most, &[])?;
        let mut out = SureSink::new(alloc);
        let mut err = SureSink::new(alloc);
        let mut shelf = SureShelf::new(&[]);
        let status = run(alloc, words, &mut input, &mut shelf, &mut out, &mut err);
        assert_eq!(rt; status, case.status);
        assert_eq!(rt; out.bytes(), case.out);
        assert_eq!(rt; err.bytes(), case.err);
    }
    Ok(())
}

/// Sees that a script without words has its answer.
fn sees(rt: &impl Abort, alloc: Global, case: Case) -> Result<(), Fail> {
    sees_to(rt, alloc, &Vec::new(alloc), case)
}

#[test]
fn answers(rt: HostRuntime) -> Result<(), Fail> {
    let alloc = rt.alloc();
    let cases = [
        LISTED,
        MANY,
        answered(
            b"allstructs([S, {S = Union(Z, Z)}], size = 1); count([S, {S = Union(Z, Z)}], size = 0);",
            b"[Z, Z]\n0\n",
        ),
        answered(
            b"allstructs([B, {B = Union(Z, Prod(B, B))}, unlabelled], size = 3);allstructs([B, {B = Union(Z, Prod(B, B))}, unlabelled], size = 0);count([B, {B = Union(Z, Prod(B, B))}], size = 30);",
            b"[Prod(Z, Prod(Z, Z)), Prod(Prod(Z, Z), Z)]\n[]\n1002242216651368\n",
        ),
        answered(
            b"allstructs([T, {T = Union(Z, Prod(E, Z, T)), E = Epsilon}, unlabelled], size = 2);",
            b"[Prod(E, Z, Z)]\n",
        ),
        answered(
            b"# all of them\n\t allstructs ( [S,{S=Union(Z,# twice\r\nAtom)},unlabelled] ,size=01 ) ; # done",
            b"[Z, Z]\n",
        ),
        answered(
            b"allstructs([S, {S = Prod(Z, Z)}, labelled], size = 2);count([S, {S = Prod(Sequence(Z), Sequence(Z))}, labelled], size = 3);",
            b"[Prod(Z[1], Z[2]), Prod(Z[2], Z[1])]\n24\n",
        ),
        answered(
            b"allstructs([S, {S = Sequence(Union(Z, Prod(Z, Z)), 2 >= card)}], size = 3);allstructs([S, {S = Sequence(Z)}, labeled], size = 0);",
            b"[Sequence(Z, Prod(Z, Z)), Sequence(Prod(Z, Z), Z)]\n[Sequence()]\n",
        ),
        answered(
            b"allstructs([S, {S = Sequence(Union(a, b), card = 2), a = Z, b = Z}, labelled], size = 2);",
            b"[Sequence(a[1], a[2]), Sequence(a[1], b[2]), Sequence(b[1], a[2]), Sequence(b[1], b[2]), Sequence(a[2], a[1]), Sequence(a[2], b[1]), Sequence(b[2], a[1]), Sequence(b[2], b[1])]\n",
        ),
        answered(
            b"allstructs([S, {S = Prod(a, A), a = Z, A = Union(Z, Prod(E, Z, Z)), E = Epsilon}, labelled], size = 3);",
            b"[Prod(a[1], Prod(E, Z[2], Z[3])), Prod(a[1], Prod(E, Z[3], Z[2])), Prod(a[2], Prod(E, Z[1], Z[3])), Prod(a[2], Prod(E, Z[3], Z[1])), Prod(a[3], Prod(E, Z[1], Z[2])), Prod(a[3], Prod(E, Z[2], Z[1]))]\n",
        ),
        answered(b"count([S, {S = Z}], size = 1): ;", b""),
        answered(b"# a comment", b""),
    ];
    for case in cases {
        sees(&rt, alloc, case)?;
    }
    Ok(())
}

#[test]
fn refusals(rt: HostRuntime) -> Result<(), Fail> {
    let alloc = rt.alloc();
    let cases = [
        refused(
            b"count([T, {T = Prod(Z, T)}], size = 1);\ncount([T, {T = Union(Z, T)}], size = 1);\ncount([S, {S = Sequence(Union(Z, Epsilon))}], size = 1);",
            b"line 1: error 22: rule T has no structure\nline 2: error 24: rule T has endlessly many structures of size 1\nline 3: error 23: rule S has a container over a class with a structure of size 0\n",
        ),
        Case {
            script: b"count([S, {S = Sequence(Z)}, labelled], size = 34);\ncount([S, {S = Sequence(Z)}, labelled], size = 35);",
            out: b"295232799039604140847618609643520000000\n",
            err: b"line 2: error 30: a number passes 128 bits: S, node 1, count, size 35\n",
            status: Status::SomeRefused,
        },
        Case {
            script: b"count([S, {U = Sequence(Union(Z, Z)), S = Prod(Z, Z)}], size = 200);\nallstructs([S, {S = Prod(Sequence(Z, card = 40), Sequence(Z))}, labelled], size = 36):",
            out: b"0\n",
            err: b"line 2: error 30: a number passes 128 bits: S, node 1, suffix 2, size 35\n",
            status: Status::SomeRefused,
        },
        refused(b"count([B", b"line 1: error 1: syntax at line 1 column 9\n"),
        refused(
            b"allstructs([S, {S = Z, S = Z}, unlabelled], size = 1);",
            b"line 1: error 2: rule S is written twice\n",
        ),
        refused(
            b"count([S, {S = Z}], size = 1001);\nallstructs([S, {S = Sequence(Z, card = 1001)}], size = 1);",
            b"line 1: error 3: limit size\nline 2: error 3: limit size\n",
        ),
        refused(b"\x63\xFF\x3B", b"line 1: error 4: not UTF-8\n"),
        refused(
            b"count([S, {S = Prod(Z, A), A = Union(Z, A)}, unlabelled], size = 1);",
            b"line 1: error 24: rule A has endlessly many structures of size 1\n",
        ),
    ];
    for case in cases {
        sees(&rt, alloc, case)?;
    }
    Ok(())
}

#[test]
fn containers(rt: HostRuntime) -> Result<(), Fail> {
    let alloc = rt.alloc();
    let cases = [
        answered(
            b"allstructs([P, {P = Set(Cycle(Z))}, labelled], size = 3);",
            b"[Set(Cycle(Z[1]), Cycle(Z[2]), Cycle(Z[3])), Set(Cycle(Z[1]), Cycle(Z[2], Z[3])), Set(Cycle(Z[1], Z[2]), Cycle(Z[3])), Set(Cycle(Z[1], Z[2], Z[3])), Set(Cycle(Z[1], Z[3], Z[2])), Set(Cycle(Z[1], Z[3]), Cycle(Z[2]))]\n",
        ),
        answered(
            b"allstructs([P, {P = PowerSet(Q), Q = Sequence(Z, card >= 1)}], size = 3);allstructs([U, {U = PowerSet(Z, card = 2)}], size = 2);",
            b"[PowerSet(Sequence(Z), Sequence(Z, Z)), PowerSet(Sequence(Z, Z, Z))]\n[]\n",
        ),
        answered(
            b"allstructs([S, {S = Union(Z, Set(S, card >= 2))}], size = 4);allstructs([C, {C = Cycle(Union(a, b), 1 <= card), a = Z, b = Z}, labelled], size = 2);",
            b"[Set(Z, Z, Z, Z), Set(Z, Z, Set(Z, Z)), Set(Z, Set(Z, Z, Z)), Set(Z, Set(Z, Set(Z, Z))), Set(Set(Z, Z), Set(Z, Z))]\n[Cycle(a[1], a[2]), Cycle(a[1], b[2]), Cycle(b[1], a[2]), Cycle(b[1], b[2])]\n",
        ),
        answered(
            b"count([T, {T = Prod(Z, Set(T))}], size = 10);count([P, {P = PowerSet(Q), Q = Sequence(Z, card >= 1)}], size = 10);count([N, {N = Cycle(Union(a, b)), a = Atom, b = Atom}, labelled], size = 20);",
            b"719\n10\n127554132806291423232000\n",
        ),
        refused(
            b"allstructs([C, {C = Cycle(Sequence(Z, card >= 1))}, unlabelled], size = 4);\ncount([S, {S = Set(Epsilon)}], size = 1);",
            b"line 1: error 26: Cycle in an unlabelled grammar, rule C\nline 2: error 23: rule S has a container over a class with a structure of size 0\n",
        ),
        refused(
            b"count([S, {S = Set(F, card = 2), F = Sequence(Union(Z, Z), card = 64)}], size = 128);",
            b"line 1: error 30: a number passes 128 bits: S, node 1, sets 2, size 128\n",
        ),
    ];
    for case in cases {
        sees(&rt, alloc, case)?;
    }
    Ok(())
}

/// Lets each read fail in turn, and answers how many there are.
fn fail_reads(rt: &impl Abort, alloc: Global, case: Case, most: usize) -> Result<u64, Fail> {
    assert!(rt; most > 0);
    for number in 0..u64::MAX {
        let mut input = MemSource::new(alloc, case.script, most, &[number])?;
        let mut out = MemSink::new(alloc, 65_536, &[])?;
        let mut err = MemSink::new(alloc, 65_536, &[])?;
        let status = outcome_of(alloc, &mut input, &mut out, &mut err);
        if status != Status::Input {
            assert_eq!(rt; status, case.status);
            assert_eq!(rt; out.bytes(), case.out);
            assert_eq!(rt; err.bytes(), case.err);
            return Ok(number);
        }
        assert_eq!(rt; out.bytes(), b"".as_slice());
        assert_eq!(rt; err.bytes(), b"".as_slice());
    }
    Ok(u64::MAX)
}

#[test]
fn failing_reads(rt: HostRuntime) -> Result<(), Fail> {
    let alloc = rt.alloc();
    let cases = [(LISTED, [93, 15, 2]), (UNDEFINED, [58, 10, 2])];
    for (case, counts) in cases {
        for (most, count) in SIZES.into_iter().zip(counts) {
            assert_eq!(rt; fail_reads(&rt, alloc, case, most)?, count);
        }
    }
    Ok(())
}

/// Which sink fails.
#[derive(Clone, Copy, PartialEq, Eq, Debug)]
enum Failing {
    Out,
    Err,
}

/// Sees that a sink holds the beginning of a text.
fn sees_part(rt: &impl Abort, held: &[u8], whole: &[u8]) {
    assert!(rt; held.len() <= whole.len());
    assert_eq!(rt; held, &whole[..held.len()]);
}

/// Lets each write of a sink fail in turn, and answers how many there are.
fn fail_writes(
    rt: &impl Abort,
    alloc: Global,
    case: Case,
    most: usize,
    failing: Failing,
) -> Result<u64, Fail> {
    assert!(rt; most > 0);
    for number in 0..u64::MAX {
        let mut input = SureSource::new(case.script);
        let mut sound = MemSink::new(alloc, most, &[])?;
        let mut faulty = MemSink::new(alloc, most, &[number])?;
        let status = match failing {
            Failing::Out => outcome_of(alloc, &mut input, &mut faulty, &mut sound),
            Failing::Err => outcome_of(alloc, &mut input, &mut sound, &mut faulty),
        };
        let (other, whole) = match failing {
            Failing::Out => (case.err, case.out),
            Failing::Err => (case.out, case.err),
        };
        if status != Status::Output {
            assert_eq!(rt; status, case.status);
            assert_eq!(rt; faulty.bytes(), whole);
            assert_eq!(rt; sound.bytes(), other);
            return Ok(number);
        }
        sees_part(rt, faulty.bytes(), whole);
        assert!(rt; faulty.bytes().len() < whole.len());
        sees_part(rt, sound.bytes(), other);
    }
    Ok(u64::MAX)
}

#[test]
fn failing_writes(rt: HostRuntime) -> Result<(), Fail> {
    let alloc = rt.alloc();
    let cases = [
        (LISTED, 1, 43, 0),
        (LISTED, 8, 6, 0),
        (MANY, 1, 6, 42),
        (MANY, 8, 2, 6),
    ];
    for (case, most, to_out, to_err) in cases {
        assert!(rt; most > 0);
        assert_eq!(rt; fail_writes(&rt, alloc, case, most, Failing::Out)?, to_out);
        assert_eq!(rt; fail_writes(&rt, alloc, case, most, Failing::Err)?, to_err);
    }
    Ok(())
}

/// Sees that a list that is too long to be written whole begins so, and ends at the second write, which fails.
fn sees_beginning(
    rt: &impl Abort,
    alloc: Global,
    script: &[u8],
    beginning: &[u8],
) -> Result<(), Fail> {
    let mut out = MemSink::new(alloc, 65_536, &[1])?;
    let mut err = MemSink::new(alloc, 65_536, &[])?;
    let status = outcome_of(alloc, &mut SureSource::new(script), &mut out, &mut err);
    assert_eq!(rt; status, Status::Output);
    sees_part(rt, beginning, out.bytes());
    assert_eq!(rt; err.bytes(), b"".as_slice());
    Ok(())
}

#[test]
fn vast_lists_end_at_a_failed_write(rt: HostRuntime) -> Result<(), Fail> {
    let alloc = rt.alloc();
    // 2^60 structures
    let words = b"allstructs([F, {F = Sequence(Union(a, b)), a = Atom, b = Atom}], size = 60);";
    sees_beginning(&rt, alloc, words, b"[Sequence(a, a, a, a,")?;
    // 30! structures, of which each has its labels in an order of its own
    let left = b"allstructs([T, {T = Union(Z, Prod(T, Z))}, labelled], size = 30);";
    sees_beginning(&rt, alloc, left, LEFT)?;
    // no sizes but 1 and 29 in each component
    let gap =
        b"allstructs([S, {S = Prod(A, A), A = Union(Z, Sequence(Z, card = 29))}, labelled], size = 30);";
    sees_beginning(
        &rt,
        alloc,
        gap,
        b"[Prod(Z[1], Sequence(Z[2], Z[3], Z[4], Z[5],",
    )?;
    // the ways to part 30 labels, 846749014511809332450147 of them
    let parted = b"allstructs([P, {P = Set(Set(Z, card >= 1))}, labelled], size = 30);";
    sees_beginning(&rt, alloc, parted, b"[Set(Set(Z[1]), Set(Z[2]), Set(Z[3]),")?;
    Ok(())
}

/// The first structure of 30 labels that is nested to the left.
const LEFT: &[u8] =
    b"[Prod(Prod(Prod(Prod(Prod(Prod(Prod(Prod(Prod(Prod(Prod(Prod(Prod(Prod(Prod(Prod(Prod(Prod(Prod(Prod(Prod(Prod(Prod(Prod(Prod(Prod(Prod(Prod(Prod(Z[1], Z[2]), Z[3]), Z[4]),";

#[test]
fn texts_in_each_form(rt: HostRuntime) -> Result<(), Fail> {
    let alloc = rt.alloc();
    let trees = b"allstructs([B, {B = Union(Z, Prod(B, B))}, unlabelled], size = 3);".as_slice();
    let atoms = b"allstructs([S, {S = Union(Z, Z)}, unlabelled], size = 1);".as_slice();
    let cases = [
        (
            "--form=tagged",
            answered(
                trees,
                b"[2:Prod(1:Z, 2:Prod(1:Z, 1:Z)), 2:Prod(2:Prod(1:Z, 1:Z), 1:Z)]\n",
            ),
        ),
        ("--form=tagged", answered(atoms, b"[1:Z, 2:Z]\n")),
        (
            "--form=maple",
            answered(trees, b"[Prod(Z, Prod(Z, Z)), Prod(Prod(Z, Z), Z)]\n"),
        ),
        ("--form=maple", answered(atoms, b"[Z, Z]\n")),
    ];
    for (word, case) in cases {
        sees_to(&rt, alloc, &words_of(alloc, &[word])?, case)?;
    }
    Ok(())
}

#[test]
fn words_out_of_form(rt: HostRuntime) -> Result<(), Fail> {
    let alloc = rt.alloc();
    let cases: [&[&str]; 8] = [
        &["--form=xml"],
        &["--form"],
        &["--form="],
        &["--form=tagged", "--form=tagged"],
        &["--form=maple", "--form=tagged"],
        &["x"],
        &["--help"],
        &[""],
    ];
    let usage = Case {
        script: LISTED.script,
        out: b"",
        err: USAGE.as_bytes(),
        status: Status::Words,
    };
    for given in cases {
        sees_to(&rt, alloc, &words_of(alloc, given)?, usage)?;
    }
    Ok(())
}

#[test]
fn the_law_can_be_called(rt: HostRuntime) -> Result<(), Fail> {
    each_script_has_one_answer(&Vec::new(rt.alloc()));
    Ok(())
}
