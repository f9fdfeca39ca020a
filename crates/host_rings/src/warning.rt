// When a history is nearly full.
ghost use Rattle.host_rings.specs.Warning.{IsNineTenths};

use crate::book::Book;
use std::io::Eprint;

/// What is to be told of a history that holds `most` calls: once that nine tenths are used, and once that it is full.
#[derive(Clone, Copy)]
pub struct Warning {
    most: u32,
    is_near_told: bool,
    is_full_told: bool,
}

impl Warning {
    /// Nothing was told yet.
    pub fn new(most: u32) -> Warning {
        Warning {
            most,
            is_near_told: false,
            is_full_told: false,
        }
    }

    /// Tells what the journal has come to.
    pub fn look(&mut self, rt: &impl Eprint, book: &Book) {
        let most = self.most;
        let near = nine_tenths(most);
        if !self.is_near_told && has_entry(book, near.saturating_sub(1) as usize) {
            self.is_near_told = true;
            let _ = eprintln!(rt; "history: {near} of {most} calls");
        }
        if !self.is_full_told && has_entry(book, most.saturating_sub(1) as usize) {
            self.is_full_told = true;
            let _ = eprintln!(rt; "history: full, {most} calls");
        }
    }
}

/// So many entries of a history that holds `most` are nine tenths, rounded down, and at least one.
pub fn nine_tenths(most: u32) -> u32
    ensures { IsNineTenths most result }
{
    let count = most - most.div_ceil(10);
    count.max(1)
}

/// Whether the journal has an entry of this number, from 0.
pub fn has_entry(book: &Book, number: usize) -> bool {
    book.entry(number).is_some()
}
