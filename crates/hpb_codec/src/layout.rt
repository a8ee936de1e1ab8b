//! The layouts of a journal.

/// How the frames of a journal lie on a device.
#[derive(Clone, Copy, Debug, PartialEq, Eq)]
pub enum JournalLayout {
    /// One page for each frame.
    Pages,
    /// Three cells of 512 bytes for each frame.
    Cells,
}

/// A layout, and how many frames a journal has.
#[derive(Clone, Copy, Debug, PartialEq, Eq)]
pub struct JournalShape {
    pub layout: JournalLayout,
    pub frames: u32,
}

/// How many bytes a page has.
pub const PAGE_BYTES: usize = 4_096;

/// How many frames a journal has at least.
pub const LEAST_FRAMES: u32 = 4;

/// How many frames a journal of cells has at least. Their number is a multiple of `CELL_FRAMES_STEP`, so that they fill
/// whole pages.
pub const LEAST_CELL_FRAMES: u32 = 16;

/// The number that divides the number of frames of a journal of cells.
pub const CELL_FRAMES_STEP: u32 = 8;

/// How many frames a journal has at most.
pub const MOST_FRAMES: u32 = 1_024;

const PAGES: u8 = 1;

const CELLS: u8 = 2;

impl JournalLayout {
    ghost use Rattle.std.specs.Prelude.{◌≡◌, Some, IfSome};
    ghost use Rattle.hpb_codec.specs.Layouts.{layout_byte};

    /// The byte that names the layout in a head.
    pub fn byte(self) -> u8
        ensures { result ≡ layout_byte self }
    {
        match self {
            JournalLayout::Pages => PAGES,
            JournalLayout::Cells => CELLS,
        }
    }

    /// The layout that a byte names, if it names one.
    pub fn of_byte(byte: u8) -> Option<JournalLayout>
        ensures found { IfSome result (λ layout. byte ≡ layout_byte layout) }
        ensures only { (layout : JournalLayout) → byte ≡ layout_byte layout → result ≡ Some layout }
    {
        match byte {
            PAGES => Some(JournalLayout::Pages),
            CELLS => Some(JournalLayout::Cells),
            _ => None,
        }
    }
}

impl JournalShape {
    ghost use Rattle.std.specs.Prelude.{◌≡◌, ◌↔◌, IsTrue};
    ghost use Rattle.hpb_codec.specs.Layouts.{least_frames, step_of_frames, IsShape};

    /// Whether a journal may have this shape: `LEAST_FRAMES` to `MOST_FRAMES` frames of a page each, or
    /// `LEAST_CELL_FRAMES` to `MOST_FRAMES` frames of three cells each, in multiples of `CELL_FRAMES_STEP`.
    pub fn is_allowed(self) -> bool
        ensures { IsTrue result ↔ IsShape self }
    {
        let (least, step) = match self.layout {
            JournalLayout::Pages => (LEAST_FRAMES, 1),
            JournalLayout::Cells => (LEAST_CELL_FRAMES, CELL_FRAMES_STEP),
        };
        least <= self.frames && self.frames <= MOST_FRAMES && self.frames % step == 0
    }
}
