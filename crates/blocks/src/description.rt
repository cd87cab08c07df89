// What the machine has: its slots, and how long its results take.
ghost use Rattle.std.specs.Prelude.{◌≡◌, ◌≤◌, true, ◌||◌, length};

// The classes that a slot takes: one or more.
#[derive(Clone, Copy)]
pub struct Slot {
    pub integer: bool,
    pub memory: bool,
    pub compare: bool,
    ghost some: { (integer || memory || compare) ≡ true },
}

// The first `count` of `slots` are those of the machine, 1 to 8.
// An array and a count: no heap is used here, and an `ArrayVec` is not `Copy`, as a description is that is handed out.
#[derive(Clone, Copy)]
pub struct Slots {
    pub slots: [Slot; 8],
    pub count: u8,
    ghost whole: { length slots ≡ 8 },
    ghost one: { 1 ≤ count },
    ghost few: { count ≤ 8 },
}

// How many cycles a result takes, at the least and at the most.
#[derive(Clone, Copy)]
pub struct Bounds {
    pub shortest: u8,
    pub longest: u8,
    ghost positive: { 1 ≤ shortest },
    ghost ordered: { shortest ≤ longest },
    ghost few: { longest ≤ 31 },
}

#[derive(Clone, Copy)]
pub struct Description {
    pub slots: Slots,
    pub integer: Bounds,
    pub load: Bounds,
    pub compare: Bounds,
}
