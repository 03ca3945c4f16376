// Rings: places in a row, of which the last is followed by the first.
ghost use Rattle.std.specs.Prelude.{◌≡◌, ◌-◌, ◌≤◌};

// Which places of a ring are in use: so many, from the front on.
#[derive(Clone, Copy, PartialEq, Eq, Debug)]
pub struct Ring {
    size: usize,
    front: usize,
    count: usize,
    ghost first: { front ≤ size - 1 },
    ghost fits: { count ≤ size },
}

impl Ring {
    ghost use Rattle.line.specs.Rings.{place_of, first_of, Grown, Advanced};

    // A ring of so many places, of which none is in use.
    pub fn over(size: usize) -> Ring
        ensures size { result.size ≡ size }
        ensures front { result.front ≡ 0 }
        ensures count { result.count ≡ 0 }
    {
        Ring {
            size,
            front: 0,
            count: 0,
        }
    }

    // How many places there are.
    pub fn size(&self) -> usize
        ensures { result ≡ self.now.size }
    {
        self.size
    }

    // How many places are in use.
    pub fn count(&self) -> usize
        ensures { result ≡ self.now.count }
    {
        self.count
    }

    // The first place in use.
    pub fn first(&self) -> Option<usize>
        ensures { result ≡ first_of self.now }
    {
        (self.count > 0).then_some(self.front)
    }

    // Place k from the front on.
    pub fn place(&self, k: usize) -> usize
        ensures { result ≡ place_of self.now k }
    {
        let behind = self.size - self.front;
        if k < behind {
            self.front + k
        } else {
            k - behind
        }
    }

    // Takes the place behind the last into use, if one is left, and answers which it is.
    pub fn grow(&mut self) -> Option<usize>
        ensures { Grown self.old result self.new }
    {
        if self.count == self.size {
            return None;
        }
        let place = self.place(self.count);
        self.count += 1;
        Some(place)
    }

    // Lets the first place go, if one is in use, and answers which it was.
    pub fn advance(&mut self) -> Option<usize>
        ensures { Advanced self.old result self.new }
    {
        let place = self.first()?;
        self.front = self.place(1);
        self.count -= 1;
        Some(place)
    }
}
