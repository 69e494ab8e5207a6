//! Counts the names that a text declares.

ghost use Rattle.std.specs.Prelude.{◌≡◌, None};
ghost use Rattle.uc_forms.specs.Tally.{fresh, one_more, anew};

/// How many names were declared since the last restart, and the first one past the limit.
#[derive(Clone, Copy, Debug)]
pub struct Tally<W> {
    pub limit: u32,
    pub count: u32,
    pub past: Option<W>,
}

impl<W: Copy> Tally<W> {
    /// No name was declared.
    pub fn new(limit: u32) -> Tally<W>
        ensures { result ≡ fresh limit }
    {
        Tally {
            limit,
            count: 0,
            past: None,
        }
    }

    /// Counts a declared name. Past the limit the first name is kept, and nothing changes any more.
    pub fn declare(&mut self, name: W)
        ensures { self.new ≡ one_more self.old name }
    {
        if self.past.is_some() {
            return;
        }
        if self.count < self.limit {
            self.count += 1;
        } else {
            self.past = Some(name);
        }
    }

    /// The count starts again at zero, unless a name was past the limit.
    pub fn restart(&mut self)
        ensures { self.new ≡ anew self.old }
    {
        if self.past.is_none() {
            self.count = 0;
        }
    }
}
