// The entries of one record: 16 bits, low byte first, two's complement where a number may be negative.
ghost use Rattle.std.specs.Prelude.{◌≡◌, ◌+◌, ◌*◌, ◌≤◌, ℕ, [], ◌∷◌, ◌++◌, length, replicate, pos, ◌-ℤ◌, IfOk, OnOk, OnErr};
ghost use Rattle.std.specs.Iterator.{YieldsFirst, item_count};
ghost use Rattle.std.specs.Int.{cast_signed, w16};
ghost use Rattle.records.specs.Left.{left};

use standard::Frame;

// Why entries are no record of a kind: too few, some left over, or a section that its room does not hold.
#[derive(Clone, Copy, Debug, PartialEq, Eq)]
pub enum NoRecord {
    Short,
    Long,
    NoRoom,
}

// What is left to be read of a record.
#[derive(Clone, Copy)]
pub struct Record<'a> {
    bytes: &'a [u8],
}

impl Iterator for Record<'_> {
    type Item = u16;

    ghost next_gives = { YieldsFirst left };

    ghost remaining = { item_count left };

    fn next(&mut self) -> Option<u16> {
        let [low, high, rest @ ..] = self.bytes else {
            return None;
        };
        self.bytes = rest;
        Some(u16::from_le_bytes([*low, *high]))
    }
}

impl<'a> Record<'a> {
    pub fn new(bytes: &'a [u8]) -> Record<'a>
        ensures { result.bytes.now ≡ bytes.now }
    {
        Record { bytes }
    }

    pub fn entry(&mut self) -> Result<u16, NoRecord>
        ensures ok { IfOk result (λ e. left self.old ≡ e ∷ left self.new) }
        ensures short { OnErr result (left self.old ≡ []) }
    {
        self.next().ok_or(NoRecord::Short)
    }

    // Stays, with `size`: a type parameter would be longer than both.
    pub fn number(&mut self) -> Result<u32, NoRecord>
        ensures ok { IfOk result (λ n. left self.old ≡ n ∷ left self.new) }
        ensures short { OnErr result (left self.old ≡ []) }
    {
        Ok(u32::from(self.entry()?))
    }

    pub fn size(&mut self) -> Result<usize, NoRecord>
        ensures ok { IfOk result (λ n. left self.old ≡ n ∷ left self.new) }
        ensures short { OnErr result (left self.old ≡ []) }
    {
        Ok(usize::from(self.entry()?))
    }

    pub fn signed(&mut self) -> Result<i32, NoRecord>
        ensures ok { IfOk result (λ z. (e : ℕ) × (left self.old ≡ e ∷ left self.new) × (z ≡ cast_signed w16 e)) }
        ensures short { OnErr result (left self.old ≡ []) }
    {
        Ok(signed(self.entry()?))
    }

    // Two entries, the low 16 bits first.
    pub fn wide(&mut self) -> Result<u32, NoRecord>
        ensures { IfOk result (λ n. (low : ℕ) × (high : ℕ) × (left self.old ≡ low ∷ high ∷ left self.new) × (n ≡ low + 65536 * high)) }
    {
        let low = self.entry()?;
        let high = self.entry()?;
        Ok(u32::from(low) + 65536 * u32::from(high))
    }

    // The next N entries.
    pub fn numbers<const N: usize>(&mut self) -> Result<[u32; N], NoRecord>
        ensures { IfOk result (λ ns. left self.old ≡ ns ++ left self.new) }
    {
        let mut numbers = [0; N];
        for k in 0..N {
            numbers[k] = self.number()?;
        }
        Ok(numbers)
    }

    // The eight numbers of a frame.
    pub fn frame(&mut self) -> Result<Frame, NoRecord>
        ensures { IfOk result (λ f. left self.old ≡ f.plane ∷ f.sub_x ∷ f.sub_y ∷ f.depth ∷ f.frame_height ∷ f.upscaled_width ∷ f.unit_size ∷ f.frame_type ∷ left self.new) }
    {
        Ok(Frame {
            plane: self.number()?,
            sub_x: self.number()?,
            sub_y: self.number()?,
            depth: self.number()?,
            frame_height: self.number()?,
            upscaled_width: self.number()?,
            unit_size: self.number()?,
            frame_type: self.number()?,
        })
    }

    // The next n entries as bytes.
    fn split(&mut self, n: usize) -> Result<&'a [u8], NoRecord>
        ensures parts { IfOk result (λ b. (self.old.bytes.now ≡ b.now ++ self.new.bytes.now) × (length b.now ≡ 2 * n)) }
    {
        if self.bytes.len() / 2 < n {
            return Err(NoRecord::Short);
        }
        let (front, rest) = self.bytes.split_at(2 * n);
        self.bytes = rest;
        Ok(front)
    }

    // The next n entries, as a record of their own.
    pub fn entries(&mut self, n: usize) -> Result<Record<'a>, NoRecord>
        ensures { IfOk result (λ r. (left self.old ≡ left r ++ left self.new) × (length (left r) ≡ n)) }
    {
        Ok(Record::new(self.split(n)?))
    }

    // The next n bytes, two an entry.
    pub fn bytes(&mut self, n: usize) -> Result<&'a [u8], NoRecord>
        ensures { IfOk result (λ b. length b.now ≡ n) }
    {
        let pairs = self.split(n.div_ceil(2))?;
        Ok(&pairs[..n])
    }

    // The next n entries to the start of the room, each as the number that it stands for; what they fill.
    pub fn fill<'r, F: Fn(u16) -> i32>(
        &mut self,
        n: usize,
        room: &'r mut [i32],
        number: F,
    ) -> Result<&'r mut [i32], NoRecord>
        requires { F.IsAlwaysCallable number }
        ensures { IfOk result (λ filled. (length filled.now ≡ n) × (n ≤ length room.old)) }
    {
        if room.len() < n {
            return Err(NoRecord::NoRoom);
        }
        let filled = &mut room[..n];
        for place in filled.iter_mut() {
            *place = number(self.entry()?);
        }
        Ok(filled)
    }

    // The same, of as many entries as the one before them says.
    pub fn section<'r, F: Fn(u16) -> i32>(
        &mut self,
        room: &'r mut [i32],
        number: F,
    ) -> Result<&'r mut [i32], NoRecord>
        requires { F.IsAlwaysCallable number }
        ensures { IfOk result (λ filled. length filled.now ≤ length room.old) }
    {
        let n = self.size()?;
        self.fill(n, room, number)
    }

    // Whether what is left is these samples.
    pub fn same(self, samples: &[i32]) -> bool {
        samples.iter().copied().eq(self.map(i32::from))
    }

    // Nothing is left over.
    pub fn end(self) -> Result<(), NoRecord>
        ensures { OnOk result (left self.entry ≡ []) }
    {
        if self.bytes.is_empty() {
            return Ok(());
        }
        Err(NoRecord::Long)
    }
}

// The number that an entry stands for in two's complement.
pub fn signed(entry: u16) -> i32
    ensures { result ≡ cast_signed w16 entry }
{
    i32::from(entry.cast_signed())
}

// The first n places of the room, each -1, so that a sample that is not written shows.
pub fn blank(n: usize, room: &mut [i32]) -> Result<&mut [i32], NoRecord>
    ensures { IfOk result (λ b. b.now ≡ replicate n (pos 0 -ℤ pos 1)) }
{
    let blank = room.get_mut(..n).ok_or(NoRecord::NoRoom)?;
    blank.fill(-1);
    Ok(blank)
}
