//! All numbers in one vector, the youngest frame last.

ghost use Rattle.std.specs.Prelude.{◌≡◌, ◌+◌, ◌<◌, ◌≤◌, ◌++◌, ◌∷◌, [], length, OnOk, OnErr, IfOk, sum, slice_index_or, pos, take};
ghost use Rattle.promela_process.specs.Store.{number_at, size_at, zeros};
ghost use Rattle.pml_store.specs.Writing.{HasIndex, HasPlace, StoredAt, index_of, stored, before, joined, but_last};
ghost use Rattle.pml_store.specs.Laid.{nowhere, extent_of, extents_of};

use promela_process::place::Place;
use sqlite_items::Items;
use std::alloc::{AllocError, Global};
use std::marker::Model;

/// Where the cells of a variable are.
#[derive(Clone, Copy, PartialEq, Eq, Debug)]
pub struct Extent {
    start: u32,
    size: u32,
}

/// Where the cells of a frame begin, and those of its variables.
#[derive(Drop)]
pub struct FrameExtents {
    base: usize,
    extents: Items<Extent>,
}

/// The numbers of variables, never more than `most`.
#[derive(Drop)]
pub struct Store {
    frames: Vec<FrameExtents>,
    cells: Vec<i32>,
    written: Vec<(u32, i32)>,
    most: u32,
}

impl Model for Store {
    ghost use Rattle.pml_store.specs.Writing.{Contents};
    ghost use Rattle.pml_store.specs.Laid.{frames_of, IsKept};

    ghost Value = { Contents };

    ghost view = { λ s. record { frames = frames_of s.frames.items s.cells.items; written = s.written.items; most = s.most } };

    ghost invariant = { λ s. IsKept s.frames.items s.cells.items s.most };
}

impl Store {
    /// No places, and never more than `most` of them.
    pub fn new(alloc: Global, most: u32) -> Store
        ensures { result ≡ record { frames = []; written = []; most = most } }
    {
        Store {
            frames: Vec::new(alloc),
            cells: Vec::new(alloc),
            written: Vec::new(alloc),
            most,
        }
    }

    /// The number at a place.
    pub fn get(&self, place: Place) -> i32
        requires { HasPlace self.now.frames place }
        ensures { result ≡ number_at self.now.frames place }
    {
        self.cells[self.index(place)]
    }

    /// The index of a place among the cells.
    fn index(&self, place: Place) -> usize
        requires { HasPlace self.now.frames place }
        ensures value { result ≡ index_of self.now.frames place }
        ensures within { result < length (joined self.now.frames) }
        ensures holds { slice_index_or (joined self.now.frames) result (pos 0) ≡ number_at self.now.frames place }
    {
        let extent = find_extent(self.frames.as_slice(), place.frame, place.variable);
        extent.start as usize + place.cell
    }

    /// The number in a cell, by its index among all.
    #[inline(always)]
    pub fn cell(&self, index: usize) -> i32
        requires { index < length (joined self.now.frames) }
        ensures { result ≡ slice_index_or (joined self.now.frames) index (pos 0) }
    {
        self.cells[index]
    }

    /// Where the cells of a frame begin among all.
    #[inline(always)]
    pub fn base(&self, frame: usize) -> usize
        requires { frame < length self.now.frames }
        ensures { result ≡ length (joined (take frame self.now.frames)) }
    {
        self.frames[frame].base
    }

    /// How many cells a variable has: none where it is not there.
    pub fn size(&self, frame: usize, variable: usize) -> usize
        ensures { result ≡ size_at self.now.frames frame variable }
    {
        find_extent(self.frames.as_slice(), frame, variable).size as usize
    }

    /// Stores a number. Want of memory changes nothing.
    #[inline(always)]
    pub fn set(&mut self, place: Place, number: i32) -> Result<(), AllocError>
        requires { HasPlace self.old.frames place }
        ensures ok { OnOk result (self.new ≡ stored self.old place number) }
        ensures err { OnErr result (self.new ≡ self.old) }
        ensures past { before self.new ≡ before self.old }
    {
        let at = self.index(place);
        let before = self.cells[at];
        self.written.reserve(1)?;
        self.written.push_reserved((at as u32, before));
        self.cells[at] = number;
        Ok(())
    }

    /// Stores a number in a cell, by its index among all. Want of memory changes nothing.
    #[inline(always)]
    pub fn set_cell(&mut self, at: usize, number: i32) -> Result<(), AllocError>
        requires { HasIndex self.old.frames at }
        ensures ok { OnOk result (StoredAt self.old at number self.new) }
        ensures err { OnErr result (self.new ≡ self.old) }
        ensures past { before self.new ≡ before self.old }
    {
        let old = self.cells[at];
        self.written.reserve(1)?;
        self.written.push_reserved((at as u32, old));
        self.cells[at] = number;
        Ok(())
    }

    /// Adds a frame with variables of these sizes, each cell 0. Want of memory changes nothing.
    pub fn push_frame(&mut self, sizes: &[usize]) -> Result<(), AllocError>
        requires { length (joined self.old.frames) + sum sizes.now ≤ self.old.most }
        ensures ok { OnOk result (self.new ≡ record self.old { frames = self.old.frames ++ zeros sizes.now ∷ [] }) }
        ensures err { OnErr result (self.new ≡ self.old) }
    {
        let base = self.cells.len();
        let (extents, end) = extents_from(*self.frames.allocator(), base, sizes)?;
        self.cells.resize(end, 0)?;
        let frame = FrameExtents { base, extents };
        match self.frames.push(frame) {
            Ok(()) => Ok(()),
            Err(refused) => {
                self.cells.truncate(base);
                Err(AllocError::from(refused))
            }
        }
    }

    /// Takes away the youngest frame.
    pub fn pop_frame(&mut self)
        requires { 0 < length self.old.frames }
        ensures { self.new ≡ record self.old { frames = but_last self.old.frames } }
    {
        if let Some(frame) = self.frames.pop() {
            self.cells.truncate(frame.base);
        }
    }

    /// The numbers, frame by frame, each variable's cells in order.
    pub fn cells(&self) -> &Vec<i32>
        ensures value { result.now.items ≡ joined self.now.frames }
        ensures few { length (joined self.now.frames) ≤ self.now.most }
    {
        &self.cells
    }

    /// The cells that were stored since `forget`, by index, with their numbers before.
    pub fn written(&self) -> &[(u32, i32)]
        ensures { result.now ≡ self.now.written }
    {
        self.written.as_slice()
    }

    /// Forgets what was written.
    pub fn forget(&mut self)
        ensures { self.new ≡ record self.old { written = [] } }
    {
        self.written.clear();
    }
}

/// Where the cells of a variable are: nowhere, where it is not there.
fn find_extent(frames: &[FrameExtents], frame: usize, variable: usize) -> Extent
    ensures { result ≡ extent_of frames.now frame variable }
{
    match frames.get(frame) {
        Some(frame) => extent_in(frame.extents.as_slice(), variable),
        None => Extent { start: 0, size: 0 },
    }
}

/// The same among a frame's variables.
fn extent_in(extents: &[Extent], variable: usize) -> Extent
    ensures { result ≡ slice_index_or extents.now variable nowhere }
{
    match extents.get(variable) {
        Some(extent) => *extent,
        None => Extent { start: 0, size: 0 },
    }
}

/// Slots of these sizes, one after another, and where they end.
fn extents_from(
    alloc: Global,
    base: usize,
    sizes: &[usize],
) -> Result<(Items<Extent>, usize), AllocError>
    requires { base + sum sizes.now ≤ 4294967295 }
    ensures { IfOk result (λ r. (r.0 ≡ extents_of base sizes.now) × (r.1 ≡ base + sum sizes.now)) }
{
    let mut at = base;
    let mut extents = Items::from_vec(Vec::with_capacity(alloc, sizes.len())?);
    for size in sizes {
        extents.push(Extent {
            start: at as u32,
            size: *size as u32,
        })?;
        at += *size;
    }
    Ok((extents, at))
}
