// The free variables of an encoding.

/// A free variable of an encoding: the bit of a net that it stands for, by its cycle and its variable there.
#[derive(Clone, Copy, Debug, PartialEq, Eq)]
pub struct Free {
    pub cycle: u32,
    pub place: u32,
    pub var: u32,
}
