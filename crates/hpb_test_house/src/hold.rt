//! Gates that hold a worker.

use hpb_house::{Gate, Point};
use std::sync::Wait;
use std::sync::atomic::{AtomicBool, AtomicU32, Ordering};
use std::thread::Parker;

/// A gate that holds the checkpointer at a point until it is opened.
#[derive(Drop)]
pub(crate) struct Hold {
    point: Point,
    was_entered: AtomicBool,
    is_open: AtomicBool,
    bell: Parker,
}

impl Hold {
    /// A gate that holds at this point, which only the checkpointer reports.
    pub(crate) fn at_point(point: Point) -> Hold {
        Hold {
            point,
            was_entered: AtomicBool::new(false),
            is_open: AtomicBool::new(false),
            bell: Parker::new(),
        }
    }

    /// Whether the point was reported.
    pub(crate) fn was_entered(&self) -> bool {
        self.was_entered.load(Ordering::SeqCst)
    }

    /// Lets the worker pass, now and from then on.
    pub(crate) fn open(&self) {
        self.is_open.store(true, Ordering::SeqCst);
        self.bell.unpark();
    }
}

impl Gate for Hold {
    fn at<R: Wait>(&self, rt: &R, point: Point) {
        if point != self.point {
            return;
        }
        self.was_entered.store(true, Ordering::SeqCst);
        for _ in rt.forever() {
            if self.is_open.load(Ordering::SeqCst) {
                return;
            }
            self.bell.park(rt);
        }
    }
}

/// A gate that holds the checkpointer at each page of its first checkpoint, until it lets it pass.
#[derive(Drop)]
pub(crate) struct Pages {
    told: AtomicU32,
    passable: AtomicU32,
    bell: Parker,
}

impl Pages {
    /// A gate that lets no page pass yet.
    pub(crate) fn new() -> Pages {
        Pages {
            told: AtomicU32::new(0),
            passable: AtomicU32::new(0),
            bell: Parker::new(),
        }
    }

    /// How many pages were reported, in order from 0 on.
    pub(crate) fn told(&self) -> u32 {
        self.told.load(Ordering::SeqCst)
    }

    /// Lets the worker pass this many pages in all.
    pub(crate) fn let_on(&self, pages: u32) {
        self.passable.store(pages, Ordering::SeqCst);
        self.bell.unpark();
    }
}

impl Gate for Pages {
    fn at<R: Wait>(&self, rt: &R, point: Point) {
        let Point::Page(page) = point else {
            return;
        };
        let page = u32::from(page);
        if page == self.told() {
            self.told.fetch_add(1, Ordering::SeqCst);
        }
        for _ in rt.forever() {
            if page < self.passable.load(Ordering::SeqCst) {
                return;
            }
            self.bell.park(rt);
        }
    }
}

/// A gate that holds a checkpoint behind its first page until a commit is between two of its turns. Then it holds that
/// commit until the next page is written. The commit is the second one: before the first there is nothing to write.
#[derive(Drop)]
pub(crate) struct Crossing {
    commits: AtomicU32,
    pages: AtomicU32,
    stands: AtomicBool,
    has_crossed: AtomicBool,
    is_open: AtomicBool,
    committing: Parker,
    checkpointing: Parker,
}

impl Crossing {
    /// A gate to which no worker has come.
    pub(crate) fn new() -> Crossing {
        Crossing {
            commits: AtomicU32::new(0),
            pages: AtomicU32::new(0),
            stands: AtomicBool::new(false),
            has_crossed: AtomicBool::new(false),
            is_open: AtomicBool::new(false),
            committing: Parker::new(),
            checkpointing: Parker::new(),
        }
    }

    /// Whether a page was written while the commit was between two turns.
    pub(crate) fn has_crossed(&self) -> bool {
        self.has_crossed.load(Ordering::SeqCst)
    }

    /// Lets both workers pass, now and from then on.
    pub(crate) fn open(&self) {
        self.is_open.store(true, Ordering::SeqCst);
        self.committing.unpark();
        self.checkpointing.unpark();
    }

    fn stand<R: Wait>(&self, rt: &R) {
        if self.commits.load(Ordering::SeqCst) == 0 {
            return;
        }
        self.stands.store(true, Ordering::SeqCst);
        self.checkpointing.unpark();
        for _ in rt.forever() {
            if self.pages.load(Ordering::SeqCst) > 1 {
                self.has_crossed.store(true, Ordering::SeqCst);
                return;
            }
            if self.is_open.load(Ordering::SeqCst) {
                return;
            }
            self.committing.park(rt);
        }
    }

    fn write<R: Wait>(&self, rt: &R, page: u8) {
        self.pages.fetch_add(1, Ordering::SeqCst);
        self.committing.unpark();
        if page > 0 {
            return;
        }
        for _ in rt.forever() {
            if self.stands.load(Ordering::SeqCst) || self.is_open.load(Ordering::SeqCst) {
                return;
            }
            self.checkpointing.park(rt);
        }
    }
}

impl Gate for Crossing {
    fn at<R: Wait>(&self, rt: &R, point: Point) {
        match point {
            Point::Committed => {
                self.commits.fetch_add(1, Ordering::SeqCst);
            }
            Point::BetweenTurns => self.stand(rt),
            Point::Page(page) => self.write(rt, page),
            Point::Gathered | Point::Retired | Point::Failed => {}
        }
    }
}
