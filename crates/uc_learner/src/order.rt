//! The order in which variables are decided: a heap by score. No clause of the search speaks of it.
//!
//! The variables stand in one list. Its first part is the heap, the rest are those that were taken out. Nothing but a new variable takes
//! memory: a variable is put back and taken by an exchange.

use std::alloc::{AllocError, Global};

/// From this rise on all scores are made smaller. Below it neither a rise nor a score, which is a sum of rises, can overflow.
const HIGH: u64 = 1 << 56;

/// A heap of 2^32 variables is less deep.
const DEPTH: usize = 64;

#[derive(Drop)]
pub struct Order {
    /// The heap, and behind it the variables that are not in it.
    variables: Vec<u32>,
    /// How many are in the heap.
    live: usize,
    /// For each variable its place in the list.
    places: Vec<usize>,
    scores: Vec<u64>,
    /// By how much a conflict raises a score.
    rise: u64,
}

impl Order {
    pub fn new(alloc: Global) -> Order {
        Order {
            variables: Vec::new(alloc),
            live: 0,
            places: Vec::new(alloc),
            scores: Vec::new(alloc),
            rise: 16,
        }
    }

    /// Adds the next variable, in the heap.
    pub fn add_variable(&mut self) -> Result<(), AllocError> {
        let Ok(variable) = u32::try_from(self.scores.len()) else {
            return Err(AllocError);
        };
        self.places.push(self.variables.len())?;
        self.variables.push(variable)?;
        self.scores.push(0)?;
        self.put_back(variable);
        Ok(())
    }

    /// Puts a variable back that is not in the heap.
    pub fn put_back(&mut self, variable: u32) {
        let Some(place) = self.places.get(variable as usize).copied() else {
            return;
        };
        if place < self.live || self.live >= self.variables.len() {
            return;
        }
        let last = self.live;
        self.exchange(place, last);
        self.live = last + 1;
        self.rise_from(last);
    }

    /// The variable with the highest score.
    pub fn best(&self) -> Option<u32> {
        if self.live == 0 {
            return None;
        }
        self.variables.first().copied()
    }

    pub fn score(&self, variable: u32) -> u64 {
        self.scores.get(variable as usize).copied().unwrap_or(0)
    }

    /// Takes out the variable with the highest score.
    pub fn take_best(&mut self) -> Option<u32> {
        if self.live == 0 {
            return None;
        }
        self.live -= 1;
        let last = self.live;
        self.exchange(0, last);
        self.sink_from(0);
        self.variables.get(last).copied()
    }

    /// Raises the score of a variable that took part in a conflict.
    pub fn raise(&mut self, variable: u32) {
        let rise = self.rise;
        if let Some(score) = self.scores.get_mut(variable as usize) {
            *score = score.saturating_add(rise);
        }
        if let Some(place) = self.places.get(variable as usize).copied() {
            if place < self.live {
                self.rise_from(place);
            }
        }
    }

    /// Makes later conflicts weigh more.
    pub fn end_conflict(&mut self) {
        self.rise = self.rise.saturating_add(self.rise / 16);
        if self.rise >= HIGH {
            for score in self.scores.iter_mut() {
                *score >>= 40;
            }
            self.rise >>= 40;
        }
    }

    fn score_at(&self, place: usize) -> u64 {
        match self.variables.get(place) {
            Some(variable) => self.scores.get(*variable as usize).copied().unwrap_or(0),
            None => 0,
        }
    }

    fn put(&mut self, place: usize, variable: u32) {
        if let Some(slot) = self.variables.get_mut(place) {
            *slot = variable;
        }
        if let Some(slot) = self.places.get_mut(variable as usize) {
            *slot = place;
        }
    }

    fn exchange(&mut self, a: usize, b: usize) {
        let Some(first) = self.variables.get(a).copied() else {
            return;
        };
        let Some(second) = self.variables.get(b).copied() else {
            return;
        };
        self.put(a, second);
        self.put(b, first);
    }

    /// Moves the variable at a place up to where it belongs.
    fn rise_from(&mut self, place: usize) {
        let mut at = place;
        for _level in 0..DEPTH {
            if at == 0 {
                return;
            }
            let parent = (at - 1) / 2;
            if self.score_at(parent) >= self.score_at(at) {
                return;
            }
            self.exchange(parent, at);
            at = parent;
        }
    }

    /// Moves the variable at a place down to where it belongs.
    fn sink_from(&mut self, place: usize) {
        let mut at = place;
        for _level in 0..DEPTH {
            let Some(child) = self.higher_child(at) else {
                return;
            };
            if self.score_at(child) <= self.score_at(at) {
                return;
            }
            self.exchange(child, at);
            at = child;
        }
    }

    fn higher_child(&self, place: usize) -> Option<usize> {
        let left = place.checked_mul(2)?.checked_add(1)?;
        if left >= self.live {
            return None;
        }
        let right = left + 1;
        if right < self.live && self.score_at(right) > self.score_at(left) {
            Some(right)
        } else {
            Some(left)
        }
    }
}
