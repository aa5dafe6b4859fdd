// The bytes of a field, written one behind another into the area that is lent for it.
ghost use Rattle.std.specs.Prelude.{◌<◌, ◌≤◌};
ghost use mathlib.Core.List.{[]};
ghost use Rattle.limits.specs.Limits.{set_bytes};
ghost use Rattle.columns.specs.Bytes.{bytes_of};
ghost use Rattle.columns.specs.ColumnSets.{whole};
ghost use Rattle.format.specs.File.Piece.{field_bytes};
ghost use Rattle.format.specs.File.Format.{entry_bytes};
ghost use Rattle.writer.specs.Putting.{Room, Puts, Opens};

use columns::ColumnSet;
use format::put_set_front;

// An area, and where its next bytes go.
#[derive(Drop)]
pub struct Pen<'a> {
    pub area: &'a mut [u8],
    pub at: usize,
}

impl<'a> Pen<'a> {
    // The first bytes go to the front.
    pub fn new(area: &'a mut [u8]) -> Pen<'a>
        ensures { Opens area.entry result }
    {
        Pen { area, at: 0 }
    }

    // These bytes go next.
    pub fn put(&mut self, bytes: &[u8])
        requires { Room bytes.now self.old }
        ensures { Puts bytes.now self.old self.new }
    {
        let end = self.at + bytes.len();
        self.area[self.at..end].copy_from_slice(bytes);
        self.at = end;
    }

    // Two bytes for each number, the low one first.
    pub fn entries(&mut self, numbers: &[u16])
        requires { Room (entry_bytes numbers.now) self.old }
        ensures { Puts (entry_bytes numbers.now) self.old self.new }
    {
        for number in numbers {
            self.put(&number.to_le_bytes());
        }
    }

    // The first bytes of a set, as many as named.
    pub fn set(&mut self, set: ColumnSet, size: usize)
        requires { (size ≤ set_bytes) × Room (bytes_of size (whole set)) self.old }
        ensures { Puts (bytes_of size (whole set)) self.old self.new }
    {
        // there is room for them
        let _ = put_set_front(&mut self.area[self.at..], set, size);
        self.at += size;
    }

    // A field's head: its tag, and how long its body is.
    pub fn head(&mut self, tag: u8, size: usize)
        requires { (size < 65536) × Room (field_bytes tag size []) self.old }
        ensures { Puts (field_bytes tag size []) self.old self.new }
    {
        self.put(&[tag]);
        self.put(&(size as u16).to_le_bytes());
    }
}
