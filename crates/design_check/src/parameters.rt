// Whether a cell's parameters are as the table of cells asks.

ghost use Rattle.std.specs.Prelude.{◌≡◌, []};
ghost use Rattle.std.specs.List.{list_all};
ghost use Rattle.design_core.specs.Asked.{has_form, has_parameters, is_inside, number_at};
ghost use Rattle.design_core.specs.Digits.{digits_number};
ghost use Rattle.design_core.specs.declared.table.ParameterForm.{ParameterForm};
ghost use Rattle.design_core.specs.Table.{form_of};

use crate::numbers::{has_number, is_sum_within, number};
use cell_table::kind::Kind;
use design_core::cell::Cell;
use design_core::digit::Constant;
use design_core::names::ParameterName;
use design_core::table::{ParameterForm, form_of, parameters};

// Whether a parameter has as many digits as WIDTH says, each 0, 1 or a free bit.
fn is_value(cell: &Cell, name: ParameterName) -> bool
    ensures { result ≡ has_form cell.now.parameters name ParameterForm.Value }
{
    match cell.parameter(name) {
        Some(constant) => {
            constant.are_values()
                && number(cell, ParameterName::Width) == Some(constant.len() as u64)
        }
        None => false,
    }
}

// Whether a parameter is there and is as its form asks.
fn is_formed(cell: &Cell, name: ParameterName) -> bool
    ensures { result ≡ has_form cell.now.parameters name (form_of name) }
{
    match form_of(name) {
        ParameterForm::Flag | ParameterForm::Number => has_number(cell, name),
        ParameterForm::Width => has_number(cell, name) && number(cell, name) != Some(0),
        ParameterForm::Value => is_value(cell, name),
    }
}

// A parameter's constant, or one without digits.
fn constant_or<'a>(cell: &'a Cell, name: ParameterName, none: &'a Constant) -> &'a Constant
    requires { none.now ≡ [] }
    ensures { digits_number result.now ≡ number_at cell.now.parameters name }
{
    match cell.parameter(name) {
        Some(constant) => constant,
        None => none,
    }
}

// Whether the bits that a `$slice` takes stand inside A.
fn is_inside(cell: &Cell) -> bool
    ensures { result ≡ is_inside cell.now.kind cell.now.parameters }
{
    match cell.kind() {
        Kind::Slice => {
            let none = Constant::number_of(0, 0);
            let offset = constant_or(cell, ParameterName::Offset, &none);
            let width = constant_or(cell, ParameterName::YWidth, &none);
            let whole = constant_or(cell, ParameterName::AWidth, &none);
            is_sum_within(offset, width, whole)
        }
        _ => true,
    }
}

// Whether each of these parameters is there and is as its form asks.
fn are_formed(cell: &Cell, names: &[ParameterName]) -> bool
    ensures { result ≡ list_all (λ name. has_form cell.now.parameters name (form_of name)) names.now }
{
    names.iter().all(|name| is_formed(cell, *name))
}

// Whether each parameter that the table names for the cell's type is there and is as it asks.
pub(crate) fn has_parameters(cell: &Cell) -> bool
    ensures { result ≡ has_parameters cell.now.kind cell.now.parameters }
{
    are_formed(cell, parameters(cell.kind())) && is_inside(cell)
}
