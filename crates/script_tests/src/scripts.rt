//! Whole scripts and texts that are none.
//!
//! Each table comes from a function with no contract, so that no proof reads it.
use std::alloc::{AllocError, Global};
use std::test::Fail;
use xr_script::{ParseFault, parse};
use xr_syntax::{Argument, Expr, Script, Statement};
use xr_types::{MOST_SCRIPT_BYTES, OpKind, ScriptKind};

/// Scripts, written by hand from the rules, and how many statements they have.
const SCRIPTS: [(&str, usize); 13] = [
    ("", 0),
    ("\n# only a comment\n\n", 0),
    ("x = -5", 1),
    ("x = ~-a.b() # c\n\n\ny = x\n", 2),
    ("a, b, c = align(x, y, join='inner',)", 1),
    ("d['v'] = x.sum('t')['c'] + 1 * (2 - 3)", 1),
    ("print({'a': [1, 2,], 'b': {}, })", 1),
    ("d['v'].to_netcdf('o.nc')", 1),
    ("[1,\n2].to_netcdf(\n)", 1),
    ("f(x, y=1).to_netcdf('a').to_netcdf('b', z=NA)", 1),
    (
        "f().to_netcdf('a').g().to_netcdf('b')['c'].to_netcdf('d')",
        1,
    ),
    ("x = a | b ^ c & d == e // f % g / h", 1),
    ("x = 170141183460469231731687303715884105727", 1),
];

/// Texts that are no scripts, with the kind and the line of the first fault.
const FAULTS: [(&str, ScriptKind, u32); 30] = [
    ("x = = 3", ScriptKind::BadSyntax, 1),
    ("y = 1\nx = = 3\nz = 2", ScriptKind::BadSyntax, 2),
    ("# c\n\nx = = 3", ScriptKind::BadSyntax, 3),
    ("x = 1 # c\ny = 2 # d\nx = = 3", ScriptKind::BadSyntax, 3),
    ("x = [\n1,\n2] 3", ScriptKind::BadSyntax, 3),
    ("x = [ # c\n1, # d\n= 2]", ScriptKind::BadSyntax, 3),
    ("x = 1 $", ScriptKind::BadToken, 1),
    ("x = 1 1 $", ScriptKind::BadSyntax, 1),
    (
        "x = 170141183460469231731687303715884105728",
        ScriptKind::BadToken,
        1,
    ),
    ("x = 1\ny = (1,", ScriptKind::BadSyntax, 2),
    ("x = (\n\n", ScriptKind::BadSyntax, 3),
    ("x = 007", ScriptKind::BadSyntax, 1),
    ("\n-x.to_netcdf('f')", ScriptKind::BadSyntax, 2),
    ("-1.to_netcdf('f')", ScriptKind::BadSyntax, 1),
    ("x = f(a=1, b)", ScriptKind::BadSyntax, 1),
    ("x = f(a=1,\nb\n)", ScriptKind::BadSyntax, 3),
    ("x = f(a=1, a=2)", ScriptKind::BadSyntax, 1),
    ("x = f(a=1,\na\n=2)", ScriptKind::BadSyntax, 2),
    ("x = f(a=1,\n2)", ScriptKind::BadSyntax, 2),
    ("x = {'a': 1, 'a': 2}", ScriptKind::BadSyntax, 1),
    ("x = {'a': 1,\n'a'\n: 2}", ScriptKind::BadSyntax, 2),
    ("x = a == b\\", ScriptKind::BadToken, 1),
    ("x = a == b == c", ScriptKind::BadSyntax, 1),
    ("# c\nx.sum()\ny", ScriptKind::BadSyntax, 2),
    ("(x.to_netcdf('f'))", ScriptKind::BadSyntax, 1),
    ("a = align(x)\na, = b", ScriptKind::BadSyntax, 2),
    ("a, b = merge(x)", ScriptKind::BadSyntax, 1),
    ("x = [\n,]", ScriptKind::BadSyntax, 2),
    ("x = 1\ny = ) !", ScriptKind::BadSyntax, 2),
    ("x = 1\n\ny = !", ScriptKind::BadToken, 3),
];

fn scripts() -> &'static [(&'static str, usize)] {
    &SCRIPTS
}

fn faults() -> &'static [(&'static str, ScriptKind, u32)] {
    &FAULTS
}

/// How many statements a text has that is a script.
fn statements_in(alloc: Global, text: &str) -> Option<usize> {
    match parse(alloc, text.as_bytes()) {
        Ok(script) => Some(script.statements.len()),
        Err(_) => None,
    }
}

/// The kind and the line of a fault.
type Place = (ScriptKind, u32);

fn fault_in(alloc: Global, bytes: &[u8]) -> Option<Place> {
    match parse(alloc, bytes) {
        Ok(_) => None,
        Err(ParseFault::Script(fault)) => Some((fault.kind, fault.line)),
        // No fault stands in this line.
        Err(ParseFault::NoMemory) => Some((ScriptKind::NotUtf8, u32::MAX)),
    }
}

#[test]
fn scripts_are_read(rt: HostRuntime) {
    for (text, count) in scripts() {
        assert!(rt; statements_in(rt.alloc(), text) == Some(*count));
    }
}

#[test]
fn faults_are_the_first(rt: HostRuntime) {
    for (text, kind, line) in faults() {
        assert!(rt; fault_in(rt.alloc(), text.as_bytes()) == Some((*kind, *line)));
    }
}

/// So many blanks and one byte more.
fn blanks_and(alloc: Global, count: usize, last: u8) -> Result<Vec<u8>, AllocError> {
    let mut bytes = Vec::new(alloc);
    bytes.resize(count, b' ')?;
    bytes.push(last)?;
    Ok(bytes)
}

/// What is wrong with the bytes comes before all tokens.
#[test]
fn bytes_come_first(rt: HostRuntime) -> Result<(), Fail> {
    let found = fault_in(rt.alloc(), b"x = = 3\n\n'\xff");
    assert!(rt; found == Some((ScriptKind::NotUtf8, 3)));
    let longest = blanks_and(rt.alloc(), MOST_SCRIPT_BYTES - 1, b' ')?;
    assert!(rt; fault_in(rt.alloc(), longest.as_slice()).is_none());
    let long = blanks_and(rt.alloc(), MOST_SCRIPT_BYTES, 255)?;
    assert!(rt; fault_in(rt.alloc(), long.as_slice()) == Some((ScriptKind::TooMany, 0)));
    Ok(())
}

/// A text between two others, so many times in the middle, and the fault of the whole.
type Repeated = (&'static str, &'static str, u32, &'static str, Option<Place>);

fn repeated(alloc: Global, case: &Repeated) -> Result<String, AllocError> {
    let (before, part, times, behind, _) = case;
    let mut text = String::new(alloc);
    text.push_str(before)?;
    for _ in 0..*times {
        text.push_str(part)?;
    }
    text.push_str(behind)?;
    Ok(text)
}

/// Whether each of these texts has its fault.
fn have_these_faults(alloc: Global, cases: &[Repeated]) -> Result<bool, AllocError> {
    for case in cases {
        let text = repeated(alloc, case)?;
        if fault_in(alloc, text.as_bytes()) != case.4 {
            return Ok(false);
        }
    }
    Ok(true)
}

const BRACKETS: [Repeated; 6] = [
    (
        "x = ",
        "[",
        64,
        "]]]]]]]]]]]]]]]]]]]]]]]]]]]]]]]]]]]]]]]]]]]]]]]]]]]]]]]]]]]]]]]]",
        None,
    ),
    ("x = ", "[", 65, "", Some((ScriptKind::TooDeep, 1))),
    ("x =[", "[1],", 100, "2]", None),
    ("x = ", "[\n", 64, "f(", Some((ScriptKind::TooDeep, 65))),
    ("x = ", "[", 64, "1(", Some((ScriptKind::BadSyntax, 1))),
    ("x = ", "[", 64, "\n}", Some((ScriptKind::BadSyntax, 2))),
];

const ELEMENTS: [Repeated; 9] = [
    ("x = -1", " + -1", 256, "\nx = a + b", None),
    ("x = -1", " + -1", 256, " +", Some((ScriptKind::TooMany, 1))),
    ("x = -a", " + 1", 255, "", None),
    (
        "x = -a",
        " + 1",
        255,
        "\n+ 1",
        Some((ScriptKind::BadSyntax, 2)),
    ),
    ("x = -a", " + 1", 256, "", Some((ScriptKind::TooMany, 1))),
    (
        "print(a",
        ".b()['c']",
        127,
        " + f())",
        Some((ScriptKind::TooMany, 1)),
    ),
    ("print(a", ".b()['c']", 127, " + 1)", None),
    ("x = 1", " + 1", 256, " + )", Some((ScriptKind::TooMany, 1))),
    ("x = 1", " + 1", 256, " ~", Some((ScriptKind::BadSyntax, 1))),
];

const STATEMENTS: [Repeated; 3] = [
    ("", "print(1)\n", 4096, "\n# c\n", None),
    (
        "",
        "print(1)\n",
        4096,
        "x",
        Some((ScriptKind::TooMany, 4097)),
    ),
    (
        "",
        "print(1)\n",
        4096,
        ")",
        Some((ScriptKind::BadSyntax, 4097)),
    ),
];

fn brackets() -> &'static [Repeated] {
    &BRACKETS
}

fn elements() -> &'static [Repeated] {
    &ELEMENTS
}

fn statements() -> &'static [Repeated] {
    &STATEMENTS
}

#[test]
fn brackets_are_limited(rt: HostRuntime) -> Result<(), Fail> {
    assert!(rt; have_these_faults(rt.alloc(), brackets())?);
    Ok(())
}

#[test]
fn elements_are_limited(rt: HostRuntime) -> Result<(), Fail> {
    assert!(rt; have_these_faults(rt.alloc(), elements())?);
    Ok(())
}

#[test]
fn statements_are_limited(rt: HostRuntime) -> Result<(), Fail> {
    assert!(rt; have_these_faults(rt.alloc(), statements())?);
    Ok(())
}

fn is_named(e: &Expr) -> bool {
    matches!(e, Expr::Name(_))
}

/// Whether an expression is `(a op b) other c`.
fn is_left(e: &Expr, op: OpKind, other: OpKind) -> bool {
    match e {
        Expr::Binary(outer, left, right) => match &**left {
            Expr::Binary(inner, _, _) => *outer == other && (*inner == op && is_named(right)),
            _ => false,
        },
        _ => false,
    }
}

/// Whether an expression is `a op (b other c)`.
fn is_right(e: &Expr, op: OpKind, other: OpKind) -> bool {
    match e {
        Expr::Binary(outer, left, right) => match &**right {
            Expr::Binary(inner, _, _) => *outer == op && (*inner == other && is_named(left)),
            _ => false,
        },
        _ => false,
    }
}

/// Whether an expression is an operator with one operand, which is a name.
fn is_signed(e: &Expr, op: OpKind) -> bool {
    match e {
        Expr::Unary(sign, a) => *sign == op && is_named(a),
        _ => false,
    }
}

fn is_number(e: &Expr, n: i128) -> bool {
    match e {
        Expr::Number(m) => *m == n,
        _ => false,
    }
}

/// Whether an expression is a name less a number.
fn is_less(e: &Expr, n: i128) -> bool {
    match e {
        Expr::Binary(op, a, b) => *op == OpKind::Subtract && (is_named(a) && is_number(b, n)),
        _ => false,
    }
}

/// Whether arguments are a plain 1, and then 2 by the name `k`.
fn are_one_and_two(args: &[Argument]) -> bool {
    match args {
        [(None, first), (Some(name), second)] => {
            is_number(first, 1) && (name.as_str() == "k" && is_number(second, 2))
        }
        _ => false,
    }
}

/// Whether an expression is the method `m` of a name, of 1 and of 2 by the name `k`.
fn is_method(e: &Expr) -> bool {
    match e {
        Expr::Method(receiver, name, args) => {
            is_named(receiver) && (name.as_str() == "m" && are_one_and_two(args.as_slice()))
        }
        _ => false,
    }
}

/// The form of an expression.
enum Shape {
    /// `(a op b) other c`
    Left(OpKind, OpKind),
    /// `a op (b other c)`
    Right(OpKind, OpKind),
    /// An operator with one operand, which is a name.
    Signed(OpKind),
    Number(i128),
    /// A name less a number.
    Less(i128),
    /// The method `m` of a name, of 1 and of 2 by the name `k`.
    Method,
}

fn has_shape(e: &Expr, shape: &Shape) -> bool {
    match shape {
        Shape::Left(op, other) => is_left(e, *op, *other),
        Shape::Right(op, other) => is_right(e, *op, *other),
        Shape::Signed(op) => is_signed(e, *op),
        Shape::Number(n) => is_number(e, *n),
        Shape::Less(n) => is_less(e, *n),
        Shape::Method => is_method(e),
    }
}

/// Whether a script is one assignment of an expression of this form.
fn assigns(alloc: Global, text: &str, shape: &Shape) -> bool {
    match parse(alloc, text.as_bytes()) {
        Ok(script) => match script.statements.as_slice() {
            [Statement::Assign(_, e)] => has_shape(e, shape),
            _ => false,
        },
        Err(_) => false,
    }
}

/// Operators of one level are read from the left; one that binds tighter comes first; a `-` before a number belongs
/// to it.
const OPERATORS: [(&str, Shape); 9] = [
    (
        "x = a - b - c",
        Shape::Left(OpKind::Subtract, OpKind::Subtract),
    ),
    (
        "x = a - (b - c)",
        Shape::Right(OpKind::Subtract, OpKind::Subtract),
    ),
    (
        "x = a * b - c",
        Shape::Left(OpKind::Multiply, OpKind::Subtract),
    ),
    (
        "x = a - b * c",
        Shape::Right(OpKind::Subtract, OpKind::Multiply),
    ),
    ("x = a | b ^ c", Shape::Right(OpKind::Or, OpKind::Xor)),
    ("x = a ^ b & c", Shape::Right(OpKind::Xor, OpKind::And)),
    ("x = a & b - c", Shape::Right(OpKind::And, OpKind::Subtract)),
    ("x = a < b | c", Shape::Right(OpKind::Less, OpKind::Or)),
    (
        "x = a / b // c",
        Shape::Left(OpKind::Divide, OpKind::FloorDivide),
    ),
];

const OPERANDS: [(&str, Shape); 7] = [
    ("x = -5", Shape::Number(-5)),
    ("x = a -5", Shape::Less(5)),
    ("x = a - -5", Shape::Less(-5)),
    ("x = -a", Shape::Signed(OpKind::Negate)),
    ("x = ~a", Shape::Signed(OpKind::Invert)),
    ("x = a.m(1, k=2)", Shape::Method),
    ("x = (\n(a).m(1, k=2,\n) )", Shape::Method),
];

fn operators() -> &'static [(&'static str, Shape)] {
    &OPERATORS
}

fn operands() -> &'static [(&'static str, Shape)] {
    &OPERANDS
}

#[test]
fn operators_bind(rt: HostRuntime) {
    for (text, shape) in operators() {
        assert!(rt; assigns(rt.alloc(), text, shape), "{text}");
    }
}

#[test]
fn operands_are_read(rt: HostRuntime) {
    for (text, shape) in operands() {
        assert!(rt; assigns(rt.alloc(), text, shape), "{text}");
    }
}
