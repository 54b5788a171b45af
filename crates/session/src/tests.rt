//! Tests of sessions: the lines that tell refusals, and what statements write.
ghost use Rattle.std.specs.Prelude.{◌≡◌, IsTrue, is_ok};
ghost use Rattle.spec_reader.specs.Cutting.{begins_piece};
ghost use Rattle.session.specs.Refusals.{IsTold, ReadingIsTold, CheckIsTold};

use super::*;
use comb_io::{MemSink, Sink, SureSink};
use size_counts::{Group, Place};
use spec_reader::{ReadRefused, Which, first_piece, read_statement};
use spec_syntax::{Bytes, Name};
use std::alloc::{AllocError, Global};
use std::process::Abort;
use std::test::Fail;
use well_founded::Refused;

/// The name that refusals in these tests tell.
fn name(alloc: Global) -> Result<Name, AllocError> {
    Name::from_slice(alloc, b"T")
}

/// A number of the second node of the first rule at size 150.
fn place(group: Group, index: u32) -> Place {
    Place {
        rule: 1,
        node: 2,
        group,
        index,
        size: 150,
    }
}

/// Sees that a refusal is told so, behind what the text has already.
fn sees(rt: &impl Abort, alloc: Global, refusal: Refusal, told: &str) -> Result<(), Fail>
    requires { IsTold refusal }
{
    let mut text = Bytes::from_slice(alloc, b"so far ")?;
    refusal_line(alloc, 12, &refusal, &mut text)?;
    let line = format!(in alloc; "so far line 12: error {told}\n")?;
    assert_eq!(rt; text.as_slice(), line.as_bytes(), "{told}");
    Ok(())
}

/// Sees that the refusal of a piece that isn't read is told so.
fn sees_reading(
    rt: &impl Abort,
    alloc: Global,
    refused: ReadRefused,
    told: &str,
) -> Result<(), Fail>
    requires { ReadingIsTold refused }
{
    sees(rt, alloc, Refusal::Read(refused), told)
}

/// Sees that the refusal of a class that doesn't pass the check is told so.
fn sees_check(rt: &impl Abort, alloc: Global, refused: Refused, told: &str) -> Result<(), Fail>
    requires { CheckIsTold refused }
{
    sees(rt, alloc, Refusal::Grammar(refused), told)
}

#[test]
fn lines_of_reading(rt: HostRuntime) -> Result<(), Fail> {
    let alloc = rt.alloc();
    let syntax = ReadRefused::Syntax(3, 17);
    sees_reading(&rt, alloc, syntax, "1: syntax at line 3 column 17")?;
    let twice = ReadRefused::DuplicateRule(name(alloc)?);
    sees_reading(&rt, alloc, twice, "2: rule T is written twice")?;
    sees_reading(&rt, alloc, ReadRefused::NotText, "4: not UTF-8")?;
    let limits = [
        (Which::Statement, "3: limit statement"),
        (Which::Script, "3: limit script"),
        (Which::Rules, "3: limit rules"),
        (Which::Nodes, "3: limit nodes"),
        (Which::Depth, "3: limit depth"),
        (Which::Name, "3: limit name"),
        (Which::Number, "3: limit number"),
        (Which::Size, "3: limit size"),
        (Which::Items, "3: limit items"),
    ];
    for (which, told) in limits {
        sees_reading(&rt, alloc, ReadRefused::Limit(which), told)?;
    }
    Ok(())
}

#[test]
fn lines_of_checks(rt: HostRuntime) -> Result<(), Fail> {
    let alloc = rt.alloc();
    let undefined = Refused::Undefined(name(alloc)?);
    sees_check(&rt, alloc, undefined, "20: no rule for T")?;
    let unproductive = Refused::Unproductive(name(alloc)?);
    sees_check(&rt, alloc, unproductive, "22: rule T has no structure")?;
    let null = Refused::NullElement(name(alloc)?);
    let told = "23: rule T has a container over a class with a structure of size 0";
    sees_check(&rt, alloc, null, told)?;
    let endless = Refused::Endless(name(alloc)?, 1001);
    let told = "24: rule T has endlessly many structures of size 1001";
    sees_check(&rt, alloc, endless, told)?;
    let cycle = Refused::CycleUnlabelled(name(alloc)?);
    sees_check(
        &rt,
        alloc,
        cycle,
        "26: Cycle in an unlabelled grammar, rule T",
    )?;
    Ok(())
}

#[test]
fn lines_of_numbers(rt: HostRuntime) -> Result<(), Fail> {
    let alloc = rt.alloc();
    let groups = [
        (Group::Count, 0, "count"),
        (Group::Suffix, 2, "suffix 2"),
        (Group::Lists, 3, "lists 3"),
        (Group::Sets, 4, "sets 4"),
    ];
    for (group, index, said) in groups {
        let told = format!(in alloc; "30: a number passes 128 bits: T, node 2, {said}, size 150")?;
        let refusal = Refusal::TooLarge(name(alloc)?, place(group, index));
        sees(&rt, alloc, refusal, told.as_str())?;
    }
    Ok(())
}

#[test]
fn lines_of_the_others(rt: HostRuntime) -> Result<(), Fail> {
    let alloc = rt.alloc();
    let unknown = Refusal::UnknownName(name(alloc)?);
    sees(&rt, alloc, unknown, "10: name T is not bound")?;
    let kind = Refusal::WrongKind(name(alloc)?);
    sees(&rt, alloc, kind, "11: name T is of another kind")?;
    sees(&rt, alloc, Refusal::Full, "12: 64 names are bound")?;
    let finished = Refusal::Finished(name(alloc)?);
    sees(&rt, alloc, finished, "13: iterator T is finished")?;
    let told = "30: a number passes 128 bits: the class";
    sees(&rt, alloc, Refusal::ClassTooLarge, told)?;
    let power_set = Refusal::PowerSet(name(alloc)?);
    sees(
        &rt,
        alloc,
        power_set,
        "40: draw meets an unlabelled PowerSet, rule T",
    )?;
    sees(&rt, alloc, Refusal::NoStructure, "41: no structure to draw")?;
    sees(&rt, alloc, Refusal::Spent, "42: the bits are spent")?;
    sees(
        &rt,
        alloc,
        Refusal::NotMember,
        "50: the cursor is no member",
    )?;
    let card = Refusal::CardUnlabelled(name(alloc)?);
    let told = "60: gfeqns of an unlabelled container with a card bound, rule T";
    sees(&rt, alloc, card, told)?;
    Ok(())
}

/// Reads a statement, which begins in line 5, and lets the session run it.
fn step_read<O: Sink, E: Sink>(
    alloc: Global,
    session: &mut Session,
    piece: &[u8],
    out: &mut O,
    err: &mut E,
) -> Result<Outcome, SessionFault>
    requires live { IsTrue session.old.is_live }
    requires begins { IsTrue (begins_piece piece.now) }
    ensures live { IsTrue (is_ok result) → IsTrue session.new.is_live }
{
    match read_statement(alloc, piece, 5, 1) {
        Ok(statement) => session.step(alloc, statement, 5, out, err),
        Err(_) => Err(SessionFault::Memory),
    }
}

const COUNT: &[u8] = b"count([B, {B = Union(Z, Prod(B, B))}], size = 3);";

const LIST: &[u8] = b"allstructs([B, {B = Union(Z, Prod(B, B))}, unlabelled], size = 3);";

const QUIET: &[u8] = b"allstructs([B, {B = Union(Z, Prod(B, B))}], size = 3):";

const UNDEFINED: &[u8] = b"count([S, {S = Union(Z, T)}], size = 1):";

#[test]
fn steps(rt: HostRuntime) -> Result<(), Fail> {
    let alloc = rt.alloc();
    let mut session = Session::new(alloc, TextForm::Maple)?;
    let mut out = MemSink::new(alloc, 7, &[])?;
    let mut err = MemSink::new(alloc, 7, &[])?;
    let counted = step_read(alloc, &mut session, COUNT, &mut out, &mut err)?;
    let listed = step_read(alloc, &mut session, LIST, &mut out, &mut err)?;
    let quiet = step_read(alloc, &mut session, QUIET, &mut out, &mut err)?;
    let empty = step_read(alloc, &mut session, b";", &mut out, &mut err)?;
    let refused = step_read(alloc, &mut session, UNDEFINED, &mut out, &mut err)?;
    assert_eq!(rt; counted, Outcome::Done);
    assert_eq!(rt; listed, Outcome::Done);
    assert_eq!(rt; quiet, Outcome::Done);
    assert_eq!(rt; empty, Outcome::Done);
    assert_eq!(rt; refused, Outcome::Refused(20));
    let written = b"2\n[Prod(Z, Prod(Z, Z)), Prod(Prod(Z, Z), Z)]\n".as_slice();
    assert_eq!(rt; out.bytes(), written);
    assert_eq!(rt;
        err.bytes(),
        b"line 5: error 20: no rule for T\n".as_slice()
    );
    Ok(())
}

#[test]
fn a_failed_write_is_told(rt: HostRuntime) -> Result<(), Fail> {
    let alloc = rt.alloc();
    let mut session = Session::new(alloc, TextForm::Maple)?;
    let mut out = MemSink::new(alloc, 7, &[1])?;
    let mut err = MemSink::new(alloc, 7, &[])?;
    let ended = step_read(alloc, &mut session, LIST, &mut out, &mut err);
    assert_eq!(rt; ended, Err(SessionFault::Out));
    assert_eq!(rt; out.bytes(), b"[Prod(Z".as_slice());
    Ok(())
}

#[test]
fn a_short_list_is_one_write(rt: HostRuntime) -> Result<(), Fail> {
    let alloc = rt.alloc();
    let lists = [
        (
            TextForm::Maple,
            "[Prod(Z, Prod(Z, Z)), Prod(Prod(Z, Z), Z)]\n",
        ),
        (
            TextForm::Tagged,
            "[2:Prod(1:Z, 2:Prod(1:Z, 1:Z)), 2:Prod(2:Prod(1:Z, 1:Z), 1:Z)]\n",
        ),
    ];
    for (texts, told) in lists {
        let mut session = Session::new(alloc, texts)?;
        let mut out = MemSink::new(alloc, 65_536, &[1])?;
        let mut err = MemSink::new(alloc, 7, &[])?;
        let ended = step_read(alloc, &mut session, LIST, &mut out, &mut err)?;
        assert_eq!(rt; ended, Outcome::Done);
        assert_eq!(rt; out.bytes(), told.as_bytes(), "{told}");
    }
    Ok(())
}

/// Reads the first statement of a script, and lets a session with texts in Maple's form run it: how it ended, and what it
/// wrote to out and to err.
fn answer(alloc: Global, script: &[u8]) -> Result<(Outcome, SureSink, SureSink), SessionFault> {
    let mut session = Session::new(alloc, TextForm::Maple)?;
    let mut out = SureSink::new(alloc);
    let mut err = SureSink::new(alloc);
    let Some((start, end)) = first_piece(script) else {
        return Ok((Outcome::Done, out, err));
    };
    let ended = step_read(alloc, &mut session, &script[start..end], &mut out, &mut err)?;
    Ok((ended, out, err))
}

/// Sees that a statement writes this to out.
fn sees_answer(rt: &impl Abort, alloc: Global, script: &str, told: &str) -> Result<(), Fail> {
    let (ended, out, err) = answer(alloc, script.as_bytes())?;
    assert_eq!(rt; ended, Outcome::Done, "{script}");
    assert_eq!(rt; out.bytes(), told.as_bytes(), "{script}");
    assert_eq!(rt; err.bytes(), b"".as_slice());
    Ok(())
}

/// Statements on classes with containers, and what they write to out.
const LISTS: [(&str, &str); 6] = [
    (
        "allstructs([P, {P = Set(Cycle(Z))}, labelled], size = 3);",
        "[Set(Cycle(Z[1]), Cycle(Z[2]), Cycle(Z[3])), Set(Cycle(Z[1]), Cycle(Z[2], Z[3])), Set(Cycle(Z[1], Z[2]), Cycle(Z[3])), Set(Cycle(Z[1], Z[2], Z[3])), Set(Cycle(Z[1], Z[3], Z[2])), Set(Cycle(Z[1], Z[3]), Cycle(Z[2]))]\n",
    ),
    (
        "allstructs([P, {P = PowerSet(Q), Q = Sequence(Z, card >= 1)}], size = 3);",
        "[PowerSet(Sequence(Z), Sequence(Z, Z)), PowerSet(Sequence(Z, Z, Z))]\n",
    ),
    (
        "allstructs([U, {U = PowerSet(Z, card = 2)}], size = 2);",
        "[]\n",
    ),
    (
        "allstructs([S, {S = Set(Q, 1 <= card), Q = Sequence(Atom, card >= 1), Z = Atom}], size = 3);",
        "[Set(Sequence(Z), Sequence(Z), Sequence(Z)), Set(Sequence(Z), Sequence(Z, Z)), Set(Sequence(Z, Z, Z))]\n",
    ),
    (
        "allstructs([S, {S = Set(Z)}, labelled], size = 0);",
        "[Set()]\n",
    ),
    (
        "allstructs([C, {C = Cycle(Union(a, b)), a = Atom, b = Atom}, labelled], size = 2);",
        "[Cycle(a[1], a[2]), Cycle(a[1], b[2]), Cycle(b[1], a[2]), Cycle(b[1], b[2])]\n",
    ),
];

#[test]
fn containers_are_listed(rt: HostRuntime) -> Result<(), Fail> {
    for (script, told) in LISTS {
        sees_answer(&rt, rt.alloc(), script, told)?;
    }
    Ok(())
}

/// Classes with containers, sizes and the numbers of structures.
const NUMBERS: [(&str, u32, &str); 19] = [
    ("[T, {T = Prod(Z, Set(T))}]", 5, "9"),
    ("[T, {T = Prod(Z, Set(T))}]", 10, "719"),
    (
        "[P, {P = PowerSet(Q), Q = Sequence(Z, card >= 1)}]",
        10,
        "10",
    ),
    ("[P, {P = Set(Q), Q = Sequence(Z, card >= 1)}]", 10, "42"),
    (
        "[P, {P = Set(Q), Q = Sequence(Z, card >= 1)}]",
        200,
        "3972999029388",
    ),
    (
        "[P, {P = PowerSet(F, card = 5), F = Sequence(Union(a, b), card = 10), a = Atom, b = Atom}]",
        50,
        "9291185992704",
    ),
    ("[P, {P = Set(Set(Z, card >= 1))}, labelled]", 5, "52"),
    (
        "[P, {P = Set(Set(Z, card >= 1))}, labelled]",
        25,
        "4638590332229999353",
    ),
    ("[S, {S = Set(Z)}, labelled]", 200, "1"),
    ("[P, {P = PowerSet(Z)}, labelled]", 3, "1"),
    ("[P, {P = PowerSet(Z)}]", 3, "0"),
    ("[C, {C = Cycle(Z)}, labelled]", 6, "120"),
    (
        "[C, {C = Cycle(Z)}, labelled]",
        34,
        "8683317618811886495518194401280000000",
    ),
    (
        "[C, {C = Cycle(Sequence(Z, card >= 1))}, labelled]",
        4,
        "90",
    ),
    (
        "[N, {N = Cycle(Union(a, b)), a = Atom, b = Atom}, labelled]",
        4,
        "96",
    ),
    (
        "[N, {N = Cycle(Union(a, b)), a = Atom, b = Atom}, labelled]",
        6,
        "7680",
    ),
    (
        "[N, {N = Cycle(Union(a, b)), a = Atom, b = Atom}, labelled]",
        20,
        "127554132806291423232000",
    ),
    (
        "[S, {S = Set(Q, 1 <= card), Q = Sequence(Atom, card >= 1), Z = Atom}]",
        3,
        "3",
    ),
    (
        "[S, {S = PowerSet(F, card = 2), F = Sequence(Union(Z, Z), card = 64)}]",
        128,
        "170141183460469231722463931679029329920",
    ),
];

#[test]
fn containers_are_counted(rt: HostRuntime) -> Result<(), Fail> {
    let alloc = rt.alloc();
    for (class, size, number) in NUMBERS {
        let script = format!(in alloc; "count({class}, size = {size});")?;
        let told = format!(in alloc; "{number}\n")?;
        sees_answer(&rt, alloc, script.as_str(), told.as_str())?;
    }
    Ok(())
}

/// Statements on classes with containers that are refused, and by which number and text.
const REFUSED: [(&str, u32, &str); 8] = [
    (
        "allstructs([C, {C = Cycle(Sequence(Z, card >= 1))}, unlabelled], size = 4);",
        26,
        "Cycle in an unlabelled grammar, rule C",
    ),
    ("count([C, {C = Cycle(T)}], size = 4);", 20, "no rule for T"),
    (
        "count([C, {C = Prod(Z, C), D = Cycle(Epsilon)}], size = 4);",
        26,
        "Cycle in an unlabelled grammar, rule D",
    ),
    (
        "count([C, {C = Cycle(Prod(Z, C))}, labelled], size = 4);",
        22,
        "rule C has no structure",
    ),
    (
        "count([S, {S = Set(PowerSet(Z)), T = Union(Z, T)}], size = 1);",
        23,
        "rule S has a container over a class with a structure of size 0",
    ),
    (
        "count([S, {S = Union(Z, Set(S, card = 1))}], size = 1);",
        24,
        "rule S has endlessly many structures of size 1",
    ),
    (
        "count([S, {S = Set(F, card = 2), F = Sequence(Union(Z, Z), card = 64)}], size = 128);",
        30,
        "a number passes 128 bits: S, node 1, sets 2, size 128",
    ),
    (
        "allstructs([C, {C = Cycle(Z)}, labelled], size = 35);",
        30,
        "a number passes 128 bits: C, node 1, lists 35, size 35",
    ),
];

#[test]
fn containers_are_refused(rt: HostRuntime) -> Result<(), Fail> {
    let alloc = rt.alloc();
    for (script, number, text) in REFUSED {
        let (ended, out, err) = answer(alloc, script.as_bytes())?;
        let told = format!(in alloc; "line 5: error {number}: {text}\n")?;
        assert_eq!(rt; ended, Outcome::Refused(number), "{script}");
        assert_eq!(rt; out.bytes(), b"".as_slice());
        assert_eq!(rt; err.bytes(), told.as_bytes(), "{script}");
    }
    Ok(())
}
