//! The states of a walk, whole, as far as there is room for them.

use std::alloc::{AllocError, Global};

// So many bytes of states are kept at most.
const MOST_BYTES: usize = 67_108_864;

/// So many states are kept at most.
pub const MOST_STATES: usize = 20_000;

// As many chains there are.
const CHAINS: usize = 32_768;

// A state. Where it stood before, its text is empty, and it is in no chain.
#[derive(Drop)]
struct Kept {
    text: Vec<u8>,
    is_first: bool,
    chain: usize,
    /// The one before it in its chain, counted from 1.
    before: usize,
}

// The chain in which a state with this text is.
fn chain_of(text: &[u8]) -> usize {
    let mut hash = 14_695_981_039_346_656_037u64;
    for byte in text {
        hash = (hash ^ u64::from(*byte)).wrapping_mul(1_099_511_628_211);
    }
    (hash >> 20) as usize % CHAINS
}

/// The states from the first on, each behind one step more.
#[derive(Drop)]
pub struct States {
    kept: Vec<Kept>,
    /// The last one of each chain, counted from 1.
    chains: Vec<usize>,
    bytes: usize,
}

impl States {
    /// None yet.
    pub fn new(alloc: Global) -> States {
        States {
            kept: Vec::new(alloc),
            chains: Vec::new(alloc),
            bytes: 0,
        }
    }

    /// How many there are.
    pub fn len(&self) -> usize {
        self.kept.len()
    }

    /// Whether no more are kept.
    pub fn is_full(&self) -> bool {
        self.kept.len() >= MOST_STATES || self.bytes >= MOST_BYTES
    }

    // Lets the last one go.
    fn drop_last(&mut self) {
        if let Some(last) = self.kept.pop() {
            self.bytes = self.bytes.saturating_sub(last.text.len());
            if last.is_first && last.chain < self.chains.len() {
                self.chains[last.chain] = last.before;
            }
        }
    }

    /// Lets all go but so many.
    pub fn cut(&mut self, count: usize) {
        for _ in count..self.kept.len() {
            self.drop_last();
        }
    }

    // The last one of a chain, counted from 1.
    fn last_of(&self, chain: usize) -> usize {
        match self.chains.get(chain) {
            Some(last) => *last,
            None => 0,
        }
    }

    // Behind how many steps this state stands first, which is in this chain.
    fn find(&self, text: &[u8], chain: usize) -> Option<usize> {
        let mut number = self.last_of(chain);
        for _ in 0..self.kept.len() {
            if number == 0 || number > self.kept.len() {
                return None;
            }
            let kept = &self.kept[number - 1];
            if kept.text.as_slice() == text {
                return Some(number - 1);
            }
            number = kept.before;
        }
        None
    }

    // There is a place for the last one of each chain.
    fn widen(&mut self) -> Result<(), AllocError> {
        for _ in self.chains.len()..CHAINS {
            self.chains.push(0)?;
        }
        Ok(())
    }

    // Keeps a state that stood before.
    fn keep_again(&mut self, chain: usize) -> Result<(), AllocError> {
        let text = Vec::new(*self.kept.allocator());
        self.kept.push(Kept {
            text,
            is_first: false,
            chain,
            before: 0,
        })?;
        Ok(())
    }

    // Keeps a state that did not stand before.
    fn keep_first(&mut self, text: &[u8], chain: usize) -> Result<(), AllocError> {
        let mut own = Vec::new(*self.kept.allocator());
        own.extend_from_slice(text)?;
        self.widen()?;
        let before = self.last_of(chain);
        self.kept.push(Kept {
            text: own,
            is_first: true,
            chain,
            before,
        })?;
        self.bytes = self.bytes.saturating_add(text.len());
        if chain < self.chains.len() {
            self.chains[chain] = self.kept.len();
        }
        Ok(())
    }

    /// Keeps the next state; behind how many steps it stood first, where it stood before.
    pub fn add(&mut self, text: &[u8]) -> Result<Option<usize>, AllocError> {
        let chain = chain_of(text);
        let found = self.find(text, chain);
        match found {
            Some(_) => self.keep_again(chain)?,
            None => self.keep_first(text, chain)?,
        }
        Ok(found)
    }
}
