//! The words of values by number, and the changes to take back where a region ends.

ghost use Rattle.std.specs.Prelude.{◌≡◌, ◌<◌, ◌++◌, ◌∷◌, [], drop, length, slice_index_or, slice_set, take, IfOk, OnOk};
ghost use Rattle.std.specs.List.{All};
ghost use Rattle.av_ir.specs.Run.{bind_values, values_at, word};
ghost use Rattle.av_scalar.specs.Names.{Since, env_of, unwound, values};

use super::words::{put, word_at};
use av_affine::{No, Seq};
use av_ir::ValueId;
use std::alloc::{AllocError, Global};

/// A value's number, and the word that it had before.
#[derive(Clone, Copy, Debug, Drop)]
pub struct Change {
    pub number: No,
    pub before: u64,
}

/// The words of values, and what has changed since the run began, in order.
#[derive(Drop)]
pub struct Names {
    pub words: Seq<u64>,
    pub changes: Seq<Change>,
}

impl Names {
    /// The words of `count` values, all 0.
    ///
    /// # Errors
    ///
    /// Want of memory.
    pub fn new(alloc: Global, count: usize) -> Result<Names, AllocError>
        ensures env { IfOk result (λ names. env_of names ≡ (λ k. word 0)) }
        ensures count { IfOk result (λ names. length names.words ≡ count) }
    {
        let mut words = Seq::new(alloc);
        for _value in 0..count {
            words.push(0)?;
        }
        Ok(Names {
            words,
            changes: Seq::new(alloc),
        })
    }

    // The word of the value of this number.
    fn word(&self, number: No) -> u64
        ensures { result ≡ slice_index_or self.now.words number 0 }
    {
        word_at(self.words.as_slice(), number)
    }

    /// The words of these values, in order.
    ///
    /// # Errors
    ///
    /// Want of memory.
    pub fn read(&self, alloc: Global, ids: &[ValueId]) -> Result<Seq<u64>, AllocError>
        ensures { IfOk result (λ ws. values ws ≡ values_at (env_of self.now) ids.now) }
    {
        let mut words = Seq::new(alloc);
        for id in ids {
            words.push(self.word(id.0))?;
        }
        Ok(words)
    }

    // Gives the value of this number its word.
    fn bind_one(&mut self, number: No, word: u64) -> Result<(), AllocError>
        ensures words { OnOk result (self.new.words ≡ slice_set self.old.words number word) }
        ensures changes { OnOk result (self.new.changes ≡ self.old.changes ++ (record { number = number; before = slice_index_or self.old.words number 0 } ∷ [])) }
    {
        let before = self.word(number);
        self.changes.push(Change { number, before })?;
        put(&mut self.words, number, word);
        Ok(())
    }

    /// Gives these values their words, in order, and 0 where words are missing.
    ///
    /// # Errors
    ///
    /// Want of memory.
    pub fn bind(&mut self, ids: &[ValueId], words: &[u64]) -> Result<(), AllocError>
        requires { All (λ id. id.0 < length self.old.words) ids.now }
        ensures env { OnOk result (env_of self.new ≡ bind_values (env_of self.old) ids.now (values words.now)) }
        ensures since { OnOk result (Since self.old self.new) }
    {
        for place in 0..ids.len() {
            let word = word_at(words, place as u64);
            self.bind_one(ids[place].0, word)?;
        }
        Ok(())
    }

    /// Takes the changes back but for the first `mark`, the last one first.
    pub fn take_back(&mut self, mark: usize)
        ensures words { self.new.words ≡ unwound self.old.words (drop mark self.old.changes) }
        ensures changes { self.new.changes ≡ take mark self.old.changes }
    {
        while self.changes.len() > mark {
            if let Some(change) = self.changes.pop() {
                put(&mut self.words, change.number, change.before);
            }
        }
    }
}
