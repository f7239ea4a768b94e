use crate::Named;

/// What an expression may name: the registers, inputs and variables that are in its scope.
#[derive(Clone, Copy, Debug)]
pub struct Names<'a> {
    pub regs: &'a [Named],
    pub inputs: &'a [Named],
    pub vars: &'a [Named],
}
