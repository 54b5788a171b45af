//! What pieces are read as, by tables.
ghost use Rattle.std.specs.Prelude.{◌≡◌};
ghost use Rattle.spec_reader.specs.Cutting.{begins_piece};

use crate::cut::Region;
use crate::{
    Place, ReadRefused, a_piece_has_a_statement_or_a_fault, a_piece_has_one_fault,
    a_piece_reads_as_one_statement, behind, first_piece, read_statement,
    the_pieces_of_a_script_follow_each_other, what_is_read_keeps_the_facts_of_a_specification,
};
use spec_syntax::{ClassRef, Expr, ExprShape, Form, Job, Name, RulesRef, Statement};
use std::alloc::{AllocError, Global};
use std::process::Abort;
use std::str;
use std::test::Fail;

/// What is wanted of pieces, and the pieces.
///
/// Of a statement the table has whether it ends with a colon, whether it asks for the number of structures and not for
/// all, the size, the universe, the symbol, the number of rules and the last rule, and of a fault its place, the name that
/// is repeated or the limit that is passed.
const TABLE: &str = r#"nothing|;
quiet nothing|:
1:2|;;
1:2|:;
1:9|count([B
1:6|count;
1:1|draw([S, {S = Z}], size = 1);
count 1 Unlabelled S, 1: S = Atom|count([S, {S = Z}], size = 1);
quiet count 2 Labelled S, 1: S = Epsilon|count([S, {S = Epsilon}, labelled], size = 2):
quiet 1 Unlabelled S, 1: S = Atom|allstructs([S, {S = Z}], size = 1) :
1:35|allstructs([S, {S = Z}], size = 1):=
1:14|count([S, {S := Z}], size = 1);
limit Size|count([S, {S = Z}], size = 1001):
1:1|x "a
1:16|allstructs # so
1:12|allstructs("ab";
1:15|allstructs("ab
1:21|allstructs([S, {S = <
1:15|allstructs([S :
1 Unlabelled S, 1: S = Atom|allstructs([S, {S = Z}], size = 1);
0 Labelled S, 1: S = Epsilon|allstructs([S,{S=Epsilon},labelled],size=0);
2 Unlabelled S, 2: A = Name S|allstructs([S, {S = Atom, A = S}, unlabelled], size = 2);
3 Labelled T, 1: S = Prod of 2|allstructs([T, {S = Prod(Epsilon, Union(S, Z))}, labeled], size = 3);
1000 Unlabelled S, 1: S = Union of 3|allstructs([S, {S = Union(Z, Z, S)}, unlabeled], size = 0001000);
1:25|allstructs([S, {S = Z}, card], size = 1);
1:24|allstructs([S, {S = Z},], size = 1);
1:33|allstructs([S, {S = Z}, labelled, labelled], size = 1);
1 Unlabelled Z, 2: Z = Atom|allstructs([Z, {S = Prod(Z), Z = Z}], size = 1);
1 Unlabelled Z, 2: Z = Atom|allstructs([Z, {S = Prod(Z), Z = Atom}], size = 1);
1:21|allstructs([S, {Z = Epsilon}], size = 1);
1:21|allstructs([S, {Z = S}], size = 1);
1:13|allstructs([Atom, {S = Z}], size = 1);
1:24|allstructs([S, {Z = Z, Atom = Z}], size = 1);
Z twice|allstructs([S, {Z = Z, S = Z, Z = Z}], size = 1);
Z twice|allstructs([S, {Z = Z, Z Z}], size = 1);
x twice|allstructs([S, {S = Z, x = Z, x Z}], size = 1);
1 Unlabelled S, 1: S = Sequence 0 None|allstructs([S, {S = Sequence(Z)}], size = 1);
1 Unlabelled S, 1: S = Sequence 3 Some(3)|allstructs([S, {S = Sequence(Z, card = 3)}], size = 1);
1 Unlabelled S, 1: S = Sequence 0 Some(3)|allstructs([S, {S = Sequence(Z, card <= 3)}], size = 1);
1 Unlabelled S, 1: S = Sequence 3 None|allstructs([S, {S = Sequence(Z, card >= 3)}], size = 1);
1 Unlabelled S, 1: S = Sequence 3 Some(3)|allstructs([S, {S = Sequence(Z, 3 = card)}], size = 1);
1 Unlabelled S, 1: S = Sequence 3 None|allstructs([S, {S = Sequence(Z, 3 <= card)}], size = 1);
1 Unlabelled S, 1: S = Sequence 0 Some(3)|allstructs([S, {S = Sequence(Z, 3 >= card)}], size = 1);
1 Unlabelled S, 1: S = Sequence 0 Some(0)|allstructs([S, {S = Sequence(Z, card = 0)}], size = 1);
1 Unlabelled S, 1: S = Sequence 0 Some(1000)|allstructs([S, {S = Sequence(Z, card<=1000)}], size = 1);
1 Unlabelled S, 1: S = Sequence 1000 None|allstructs([S, {S = Sequence(Z, 1000<=card)}], size = 1);
1:30|allstructs([S, {S = Sequence()}], size = 1);
1:33|allstructs([S, {S = Sequence(Z, Z)}], size = 1);
1:37|allstructs([S, {S = Sequence(Z, card)}], size = 1);
1:38|allstructs([S, {S = Sequence(Z, card < 2)}], size = 1);
1:38|allstructs([S, {S = Sequence(Z, card := 1)}], size = 1);
1:40|allstructs([S, {S = Sequence(Z, card = card)}], size = 1);
1:41|allstructs([S, {S = Sequence(Z, card = 2, Z)}], size = 1);
1:35|allstructs([S, {S = Sequence(Z, 2 card)}], size = 1);
1:37|allstructs([S, {S = Sequence(Z, 2 = 3)}], size = 1);
1:34|allstructs([S, {S = Sequence(Z, 2)}], size = 1);
1:42|allstructs([S, {S = Sequence(Z, 1 = card = 1)}], size = 1);
1 Unlabelled S, 1: S = Set 0 None|allstructs([S, {S = Set(Z)}], size = 1);
count 3 Labelled S, 1: S = PowerSet 0 Some(2)|count([S, {S = PowerSet(Z, 2 >= card)}, labelled], size = 3);
2 Labelled S, 1: S = Cycle 3 None|allstructs([S, {S = Cycle(Set(Z), card >= 3)}, labeled], size = 2);
1:21|allstructs([S, {S = Subst(Z, Z)}], size = 1);
1:28|allstructs([S, {S = Set(Set)}], size = 1);
1:30|allstructs([S, {S = Cycle(Z, Z)}], size = 1);
limit Size|allstructs([S, {S = PowerSet(Z, card <= 1001)}], size = 1);
limit Size|allstructs([S, {S = Sequence(Z, card = 1001)}], size = 1);
limit Size|allstructs([S, {S = Sequence(Z, card <= 340282366920938463463374607431768211455)}], size = 1);
limit Number|allstructs([S, {S = Sequence(Z, card >= 340282366920938463463374607431768211456)}], size = 1);
limit Size|allstructs([S, {S = Sequence(Z, 1001 = card)}], size = 1);
limit Size|allstructs([S, {S = Sequence(Z, 340282366920938463463374607431768211455 <= card)}], size = 1);
limit Number|allstructs([S, {S = Sequence(Z, 340282366920938463463374607431768211456 >= card)}], size = 1);
limit Size|allstructs([S, {S = Sequence(Z, 1001 card)}], size = 1);
1:38|allstructs([S, {S = Sequence(Z, card 1001)}], size = 1);
1:32|allstructs([S, {S = Sequence(Z 1001)}], size = 1);
limit Size|allstructs([S, {S = Z}], size = 1001);
limit Size|allstructs([S, {S = Z}], size = 1001 1);
1:23|allstructs([S, {x = Z x}], size = 1001);
limit Number|allstructs([S, {S = Z}], size = 340282366920938463463374607431768211456);
1:24|allstructs([S, {x = Z, (}], size = 340282366920938463463374607431768211456);
1:23|allstructs([S, {x = Z 340282366920938463463374607431768211456}], size = 1);
1:24|allstructs([S, {x = Z, 340282366920938463463374607431768211456}], size = 1);
1 Unlabelled S, 1: xxxxxxxxxxxxxxxxxxxxxxxxxxxxxxxx = Atom|allstructs([S, {xxxxxxxxxxxxxxxxxxxxxxxxxxxxxxxx = Z}], size = 1);
limit Name|allstructs([S, {xxxxxxxxxxxxxxxxxxxxxxxxxxxxxxxxx = Z, (}], size = 1);
1:23|allstructs([S, {x = Z xxxxxxxxxxxxxxxxxxxxxxxxxxxxxxxxx}], size = 1);
1:33|allstructs([S, {S = Z}], size = xxxxxxxxxxxxxxxxxxxxxxxxxxxxxxxxx);"#;

/// The same for pieces with bytes that the table can't have.
const ODD_PIECES: [(&str, &[u8]); 5] = [
    ("2:1", b"allstructs # so\n"),
    ("1:14", b"allstructs(\"a\t\";"),
    ("1:13", b"allstructs([\xc3\xa9;"),
    (
        "1 Unlabelled S, 1: S = Sequence 7 Some(7)",
        b"allstructs([S, {S = Sequence(Z, 007=card # seven\n)}], size = 1);",
    ),
    ("not text", b"c\xff;"),
];

/// The same for pieces where a part stands so often in place of `@`, each time with another word in place of `%`, and
/// closing parentheses as often in place of `&`.
const LONG_PIECES: [(&str, &str, &str, usize); 13] = [
    (
        "1 Unlabelled S, 64: ck = Atom",
        "allstructs([S, {S = Z@}], size = 1);",
        ", % = Z",
        63,
    ),
    (
        "limit Rules",
        "allstructs([S, {S = Z@}], size = 1);",
        ", % = Z",
        64,
    ),
    (
        "limit Rules",
        "allstructs([S, {S = Z@, aa = Z}], size = 1);",
        ", % = Z",
        63,
    ),
    (
        "1 Unlabelled S, 64: Z = Atom",
        "allstructs([S, {S = Z@, Z = Z}], size = 1);",
        ", % = Z",
        62,
    ),
    (
        "limit Rules",
        "allstructs([S, {S = Z@, Z = Z}], size = 1);",
        ", % = Z",
        63,
    ),
    (
        "1 Unlabelled S, 1: S = Union of 127",
        "allstructs([S, {S = Union(Z@)}], size = 1);",
        ", Z",
        126,
    ),
    (
        "limit Nodes",
        "allstructs([S, {S = Union(Z@)}], size = 1);",
        ", Z",
        127,
    ),
    (
        "1 Unlabelled S, 2: Z = Atom",
        "allstructs([S, {S = Union(Z@), Z = Atom}], size = 1);",
        ", Z",
        125,
    ),
    (
        "limit Nodes",
        "allstructs([S, {S = Union(Z@), Z = Atom}], size = 1);",
        ", Z",
        126,
    ),
    (
        "1 Unlabelled S, 1: S = Union of 1",
        "allstructs([S, {S = @Z&}], size = 1);",
        "Union(",
        31,
    ),
    (
        "limit Depth",
        "allstructs([S, {S = @Z&}], size = 1);",
        "Union(",
        32,
    ),
    ("nothing", ";@", " ", 65535),
    ("limit Statement", ";@", " ", 65536),
];

/// A statement, with a blank between any two tokens.
const SPACED: &str =
    "allstructs ( [ Z , { Z = Atom , S = Sequence ( Z , 2 >= card ) , T = Union ( S , Z ) , U = Sequence ( T , card = 2 ) } , labeled ] , size = 1 ) ;";

const LETTERS: &[u8; 26] = b"abcdefghijklmnopqrstuvwxyz";

/// Whether a piece begins with its first byte.
fn begins_piece(piece: &[u8]) -> bool
    ensures { result ≡ begins_piece piece.now }
{
    match piece {
        [first, ..] => !Region::Open.skips(*first),
        [] => false,
    }
}

fn name_text(name: &Name) -> &str {
    str::from_utf8(name.as_slice()).unwrap_or("no text")
}

fn expr_text(alloc: Global, expr: &Expr) -> Result<String, AllocError> {
    match &expr.shape {
        ExprShape::Epsilon => String::from_str(alloc, "Epsilon"),
        ExprShape::Atom => String::from_str(alloc, "Atom"),
        ExprShape::Name(name) => format!(in alloc; "Name {}", name_text(name)),
        ExprShape::Union(arguments) => format!(in alloc; "Union of {}", arguments.len()),
        ExprShape::Prod(arguments) => format!(in alloc; "Prod of {}", arguments.len()),
        ExprShape::Many(kind, _, card) => {
            format!(in alloc; "{kind:?} {} {:?}", card.low, card.high)
        }
    }
}

/// A statement as the table has it.
fn statement_text(alloc: Global, statement: &Statement) -> Result<String, AllocError> {
    let quiet = if statement.quiet { "quiet " } else { "" };
    let (command, work) = match &statement.form {
        Form::Empty => return format!(in alloc; "{quiet}nothing"),
        Form::List(work) => ("", work),
        Form::Count(work) => ("count ", work),
        Form::Rules(..)
        | Form::Class(..)
        | Form::Iterate(..)
        | Form::Draw(_)
        | Form::Next(_)
        | Form::Finished(_)
        | Form::Cursor(_)
        | Form::Rest(_)
        | Form::Equations(..) => return String::from_str(alloc, "another form"),
    };
    let Job::Grammar(ClassRef::Written(symbol, RulesRef::Written(spec), universe), size) = work
    else {
        return String::from_str(alloc, "another class");
    };
    let rules = spec.rules();
    if rules == 0 {
        return String::from_str(alloc, "no rules");
    }
    let name = name_text(spec.name(rules));
    let right = expr_text(alloc, spec.right(rules))?;
    let symbol = name_text(symbol);
    format!(in alloc; "{quiet}{command}{size} {universe:?} {symbol}, {rules}: {name} = {right}")
}

/// What a piece is read as, as the table has it.
fn answer(rt: &impl Abort, alloc: Global, piece: &[u8]) -> Result<String, AllocError> {
    let begins = begins_piece(piece);
    assert!(rt; begins);
    match read_statement(alloc, piece, 1, 1) {
        Ok(statement) => statement_text(alloc, &statement),
        Err(ReadRefused::Syntax(line, column)) => format!(in alloc; "{line}:{column}"),
        Err(ReadRefused::DuplicateRule(name)) => format!(in alloc; "{} twice", name_text(&name)),
        Err(ReadRefused::Limit(which)) => format!(in alloc; "limit {which:?}"),
        Err(ReadRefused::NotText) => String::from_str(alloc, "not text"),
        Err(ReadRefused::Memory) => String::from_str(alloc, "no memory"),
    }
}

/// Puts `part` so many times at the end, each time with another word in place of `%`.
fn push_often(text: &mut Vec<u8>, part: &str, count: usize) -> Result<(), AllocError> {
    for i in 0..count {
        for byte in part.as_bytes() {
            if *byte == b'%' {
                text.push(LETTERS[i / 26 % 26])?;
                text.push(LETTERS[i % 26])?;
            } else {
                text.push(*byte)?;
            }
        }
    }
    Ok(())
}

/// A piece of `LONG_PIECES`.
fn long_piece(alloc: Global, piece: &str, part: &str, count: usize) -> Result<Vec<u8>, AllocError> {
    let mut text = Vec::new(alloc);
    for byte in piece.as_bytes() {
        match byte {
            b'@' => push_often(&mut text, part, count)?,
            b'&' => push_often(&mut text, ")", count)?,
            _ => text.push(*byte)?,
        }
    }
    Ok(text)
}

#[test]
fn pieces_are_read_as_the_tables_say(rt: HostRuntime) -> Result<(), Fail> {
    let alloc = rt.alloc();
    for row in TABLE.lines() {
        let Some((wanted, piece)) = row.split_once('|') else {
            panic!(rt; "no row");
        };
        let read = answer(&rt, alloc, piece.as_bytes())?;
        assert_eq!(rt; read.as_str(), wanted, "at {piece}");
    }
    for (wanted, piece) in ODD_PIECES {
        let read = answer(&rt, alloc, piece)?;
        assert_eq!(rt; read.as_str(), wanted);
    }
    for (wanted, piece, part, count) in LONG_PIECES {
        let text = long_piece(alloc, piece, part, count)?;
        let read = answer(&rt, alloc, text.as_slice())?;
        assert_eq!(rt; read.as_str(), wanted, "at {count} in {piece}");
    }
    Ok(())
}

/// Cuts the statement before its token at these places, writes the token twice, and puts `;` in its place.
fn token_is_looked_at(
    rt: &impl Abort,
    alloc: Global,
    start: usize,
    end: usize,
) -> Result<(), Fail> {
    let text = SPACED.as_bytes();
    assert!(rt; start < end && end <= text.len() && text.len() < 1000);
    let (front, token, rest) = (&text[..start], &text[start..end], &text[end..]);
    let second = format!(in alloc; "1:{}", end + 2)?;
    let mut doubled = Vec::from_slice(alloc, &text[..end])?;
    doubled.push(b' ')?;
    doubled.extend_from_slice(token)?;
    doubled.extend_from_slice(rest)?;
    assert_eq!(rt; answer(rt, alloc, doubled.as_slice())?, second);
    let here = format!(in alloc; "1:{}", start + 1)?;
    if start > 0 {
        assert_eq!(rt; answer(rt, alloc, front)?, here);
    }
    if start > 0 && !rest.is_empty() {
        let mut ended = Vec::from_slice(alloc, front)?;
        ended.push(b';')?;
        ended.extend_from_slice(rest)?;
        assert_eq!(rt; answer(rt, alloc, ended.as_slice())?, here);
    }
    Ok(())
}

#[test]
fn each_token_is_looked_at(rt: HostRuntime) -> Result<(), Fail> {
    let mut start = 0;
    for (end, byte) in SPACED.as_bytes().iter().copied().enumerate() {
        if byte == b' ' {
            token_is_looked_at(&rt, rt.alloc(), start, end)?;
            start = end + 1;
        }
    }
    token_is_looked_at(&rt, rt.alloc(), start, SPACED.len())
}

#[test]
fn scripts_are_cut_and_places_counted(rt: HostRuntime) {
    let script = b"# one\n allstructs(\";\", # two;\n 1); x := 1:";
    assert_eq!(rt; first_piece(script), Some((7, 34)));
    assert_eq!(rt; first_piece(&script[34..]), Some((1, 8)));
    assert_eq!(rt; first_piece(b" # no end;"), None);
    let start = Place { line: 4, column: 3 };
    let same_line = behind(start, b"ab\t");
    assert_eq!(rt; (same_line.line, same_line.column), (4, 6));
    let next_line = behind(start, b"a\r\n b");
    assert_eq!(rt; (next_line.line, next_line.column), (5, 3));
}

#[test]
fn the_laws_can_be_called() {
    the_pieces_of_a_script_follow_each_other();
    a_piece_reads_as_one_statement();
    a_piece_has_one_fault();
    a_piece_has_a_statement_or_a_fault();
    what_is_read_keeps_the_facts_of_a_specification();
}
