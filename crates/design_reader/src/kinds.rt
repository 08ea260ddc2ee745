// The types of cells by their names.

ghost use Rattle.std.specs.Prelude.{◌≡◌, bytes_eq};
ghost use Rattle.std.specs.Map.{lookup};
ghost use Rattle.design_reader.specs.Kinds.{is_ignored, kind_of, kind_by_form, named_kinds};
ghost use Rattle.design_reader.specs.Views.{kind_rows};

use cell_table::kind::{
    Any, Binary, Compare, Divide, Kind, LeftOut, Logic, Reduce, Statement, Unary,
};

static NAMED_KINDS: [(&str, Kind); 72] = [
    ("$not", Kind::Unary(Unary::Not)),
    ("$pos", Kind::Unary(Unary::Pos)),
    ("$neg", Kind::Unary(Unary::Neg)),
    ("$and", Kind::Binary(Binary::And)),
    ("$or", Kind::Binary(Binary::Or)),
    ("$xor", Kind::Binary(Binary::Xor)),
    ("$xnor", Kind::Binary(Binary::Xnor)),
    ("$add", Kind::Binary(Binary::Add)),
    ("$sub", Kind::Binary(Binary::Sub)),
    ("$mul", Kind::Binary(Binary::Mul)),
    ("$reduce_and", Kind::Reduce(Reduce::And)),
    ("$reduce_or", Kind::Reduce(Reduce::Or)),
    ("$reduce_xor", Kind::Reduce(Reduce::Xor)),
    ("$reduce_xnor", Kind::Reduce(Reduce::Xnor)),
    ("$reduce_bool", Kind::Reduce(Reduce::Bool)),
    ("$logic_not", Kind::Reduce(Reduce::Not)),
    ("$logic_and", Kind::Logic(Logic::And)),
    ("$logic_or", Kind::Logic(Logic::Or)),
    ("$eq", Kind::Compare(Compare::Eq)),
    ("$ne", Kind::Compare(Compare::Ne)),
    ("$eqx", Kind::Compare(Compare::Eqx)),
    ("$nex", Kind::Compare(Compare::Nex)),
    ("$lt", Kind::Compare(Compare::Lt)),
    ("$le", Kind::Compare(Compare::Le)),
    ("$gt", Kind::Compare(Compare::Gt)),
    ("$ge", Kind::Compare(Compare::Ge)),
    ("$shl", Kind::ShiftLeft),
    ("$sshl", Kind::ShiftLeft),
    ("$shr", Kind::ShiftRight),
    ("$sshr", Kind::ShiftSign),
    ("$shift", Kind::ShiftAny),
    ("$shiftx", Kind::ShiftAny),
    ("$div", Kind::Divide(Divide::Div)),
    ("$mod", Kind::Divide(Divide::Mod)),
    ("$mux", Kind::Mux),
    ("$pmux", Kind::Pmux),
    ("$bmux", Kind::Bmux),
    ("$slice", Kind::Slice),
    ("$concat", Kind::Concat),
    ("$ff", Kind::Ff),
    ("$dff", Kind::Dff),
    ("$dffe", Kind::Dffe),
    ("$sdff", Kind::Sdff),
    ("$sdffe", Kind::Sdffe),
    ("$sdffce", Kind::Sdffce),
    ("$assert", Kind::Statement(Statement::Assert)),
    ("$assume", Kind::Statement(Statement::Assume)),
    ("$cover", Kind::Statement(Statement::Cover)),
    ("$anyconst", Kind::Any(Any::Const)),
    ("$anyseq", Kind::Any(Any::Seq)),
    ("$initstate", Kind::InitState),
    ("$dlatch", Kind::LeftOut(LeftOut::Dlatch)),
    ("$adlatch", Kind::LeftOut(LeftOut::Adlatch)),
    ("$dlatchsr", Kind::LeftOut(LeftOut::Dlatchsr)),
    ("$sr", Kind::LeftOut(LeftOut::Sr)),
    ("$lut", Kind::LeftOut(LeftOut::Lut)),
    ("$alu", Kind::LeftOut(LeftOut::Alu)),
    ("$macc", Kind::LeftOut(LeftOut::Macc)),
    ("$fsm", Kind::LeftOut(LeftOut::Fsm)),
    ("$tribuf", Kind::LeftOut(LeftOut::Tribuf)),
    ("$demux", Kind::LeftOut(LeftOut::Demux)),
    ("$bwmux", Kind::LeftOut(LeftOut::Bwmux)),
    ("$bweqx", Kind::LeftOut(LeftOut::Bweqx)),
    ("$divfloor", Kind::LeftOut(LeftOut::Divfloor)),
    ("$modfloor", Kind::LeftOut(LeftOut::Modfloor)),
    ("$live", Kind::LeftOut(LeftOut::Live)),
    ("$fair", Kind::LeftOut(LeftOut::Fair)),
    ("$allconst", Kind::LeftOut(LeftOut::Allconst)),
    ("$allseq", Kind::LeftOut(LeftOut::Allseq)),
    ("$check", Kind::LeftOut(LeftOut::Check)),
    ("$adff", Kind::Adff),
    ("$adffe", Kind::Adffe),
];

/// What the rows have beside this name.
fn kind_beside(rows: &[(&str, Kind)], name: &str) -> Option<Kind>
    ensures { result ≡ lookup (λ n. bytes_eq n name.now) (kind_rows rows.now) }
{
    for (n, kind) in rows {
        if *n == name {
            return Some(*kind);
        }
    }
    None
}

fn named_kind(name: &str) -> Option<Kind>
    ensures { result ≡ lookup (λ n. bytes_eq n name.now) named_kinds }
{
    kind_beside(&NAMED_KINDS, name)
}

/// The kind of a type that no row names.
fn form_kind(name: &str) -> Kind
    ensures { result ≡ kind_by_form name.now }
{
    let bytes = name.as_bytes();
    if bytes.starts_with(b"$mem") {
        Kind::LeftOut(LeftOut::Memory)
    } else if bytes.starts_with(b"$_") && bytes.len() >= 3 && bytes.ends_with(b"_") {
        Kind::LeftOut(LeftOut::Gate)
    } else {
        Kind::Unknown
    }
}

/// The kind of a cell's type.
pub fn kind(name: &str) -> Kind
    ensures { result ≡ kind_of name.now }
{
    match named_kind(name) {
        Some(kind) => kind,
        None => form_kind(name),
    }
}

/// Whether cells of this type are read and ignored.
pub fn is_ignored(name: &str) -> bool
    ensures { result ≡ is_ignored name.now }
{
    name == "$scopeinfo" || name == "$print"
}
