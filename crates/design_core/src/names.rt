// The names that the table of cells knows.

ghost use Rattle.std.specs.Prelude.{◌≡◌, ◌≢◌, IfSome, IfNone};
ghost use Rattle.design_core.specs.Names.{parameter_text, port_text};
ghost use Rattle.design_core.specs.declared.names.ParameterName.{ParameterName};
ghost use Rattle.design_core.specs.declared.names.PortName.{PortName};

/// A port that some line of the table names.
#[derive(Clone, Copy, Debug, PartialEq, Eq)]
pub enum PortName {
    A,
    B,
    S,
    En,
    Y,
    Clk,
    D,
    Q,
    Srst,
    Arst,
}

/// A parameter that some line of the table names.
#[derive(Clone, Copy, Debug, PartialEq, Eq)]
pub enum ParameterName {
    ASigned,
    AWidth,
    BSigned,
    BWidth,
    YWidth,
    Width,
    SWidth,
    Offset,
    ClkPolarity,
    EnPolarity,
    SrstPolarity,
    SrstValue,
    ArstPolarity,
    ArstValue,
}

/// The port of this name, without the backslash of the text, if some line of the table names it.
pub fn known_port(name: &str) -> Option<PortName>
    ensures some { IfSome result (λ p. port_text p ≡ name.now) }
    ensures none { IfNone result ((p : PortName) → port_text p ≢ name.now) }
{
    match name {
        "A" => Some(PortName::A),
        "B" => Some(PortName::B),
        "S" => Some(PortName::S),
        "EN" => Some(PortName::En),
        "Y" => Some(PortName::Y),
        "CLK" => Some(PortName::Clk),
        "D" => Some(PortName::D),
        "Q" => Some(PortName::Q),
        "SRST" => Some(PortName::Srst),
        "ARST" => Some(PortName::Arst),
        _ => None,
    }
}

/// The parameter of this name, without the backslash of the text, if some line of the table names it.
pub fn known_parameter(name: &str) -> Option<ParameterName>
    ensures some { IfSome result (λ p. parameter_text p ≡ name.now) }
    ensures none { IfNone result ((p : ParameterName) → parameter_text p ≢ name.now) }
{
    match name {
        "A_SIGNED" => Some(ParameterName::ASigned),
        "A_WIDTH" => Some(ParameterName::AWidth),
        "B_SIGNED" => Some(ParameterName::BSigned),
        "B_WIDTH" => Some(ParameterName::BWidth),
        "Y_WIDTH" => Some(ParameterName::YWidth),
        "WIDTH" => Some(ParameterName::Width),
        "S_WIDTH" => Some(ParameterName::SWidth),
        "OFFSET" => Some(ParameterName::Offset),
        "CLK_POLARITY" => Some(ParameterName::ClkPolarity),
        "EN_POLARITY" => Some(ParameterName::EnPolarity),
        "SRST_POLARITY" => Some(ParameterName::SrstPolarity),
        "SRST_VALUE" => Some(ParameterName::SrstValue),
        "ARST_POLARITY" => Some(ParameterName::ArstPolarity),
        "ARST_VALUE" => Some(ParameterName::ArstValue),
        _ => None,
    }
}
