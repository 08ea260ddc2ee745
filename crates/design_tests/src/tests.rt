// Texts of designs, and what is built by hand.

mod bits;
mod cells;
mod designs;
mod faults;
mod lowering;
mod models;
mod reads;
mod runs;
mod signals;
mod states;
mod tokens;
mod traces;

use design_check::check::{DesignFault, check};
use design_check::flat::Flat;
use design_core::design::Design;
use design_reader::read;
use std::alloc::Global;
use std::test::Fail;

fn design_of(alloc: Global, text: &str) -> Result<Design, Fail> {
    match read(alloc, text.as_bytes())? {
        Ok(design) => Ok(design),
        Err(_) => Err(Fail::from("not read")),
    }
}

fn checked(alloc: Global, text: &str) -> Result<Result<Flat, DesignFault>, Fail> {
    Ok(check(alloc, design_of(alloc, text)?)?)
}

fn flat_of(alloc: Global, text: &str) -> Result<Flat, Fail> {
    match checked(alloc, text)? {
        Ok(flat) => Ok(flat),
        Err(_) => Err(Fail::from("not flat")),
    }
}
