// The names of ports and of parameters.

ghost use Rattle.std.specs.Prelude.{◌≡◌, slice_index};
ghost use Rattle.rtlil_lex.specs.Tokens.{begins_name};
ghost use Rattle.design_reader.specs.Grammar.{kept_parameter};
ghost use Rattle.design_reader.specs.Labels.{bare, known_parameter, known_port};

use cell_table::kind::Kind;
use design_core::names::{ParameterName, PortName, known_parameter, known_port};
use design_core::parts::names_parameter;

/// Whether the word begins as a name does.
pub fn starts_name(word: &[u8]) -> bool
    ensures { result ≡ begins_name (slice_index word.now 0) }
{
    match word {
        [] => false,
        [first, ..] => *first == b'\\' || *first == b'$',
    }
}

/// A port's or parameter's name without the backslash before it, unless that would make it another identifier's.
pub fn bare_name(name: &str) -> &str
    ensures { result.now ≡ bare name.now }
{
    let Some(rest) = name.strip_prefix('\\') else {
        return name;
    };
    if starts_name(rest.as_bytes()) {
        name
    } else {
        rest
    }
}

/// The port of this name that some line of the table names.
pub fn port_label(name: &str) -> Option<PortName>
    ensures { result ≡ known_port name.now }
{
    known_port(name)
}

/// The parameter of this name that some line of the table names.
fn table_parameter(name: &str) -> Option<ParameterName>
    ensures { result ≡ known_parameter name.now }
{
    known_parameter(name)
}

/// The parameter of this name that the table names for the type.
pub fn parameter_label(kind: Kind, name: &str) -> Option<ParameterName>
    ensures { result ≡ kept_parameter kind (known_parameter name.now) }
{
    match table_parameter(name) {
        Some(parameter) if names_parameter(kind, parameter) => Some(parameter),
        _ => None,
    }
}
