// A walk over a list of actions. What takes or returns the struct is thin: the work is in `found_at`, `end_at` and `piece_at`, on the
// slice and the number.
#![tactic(auto)]

ghost use Rattle.std.specs.Prelude.{◌≡◌, take, drop};
ghost use Rattle.walk.specs.Plan.{found_at, behind};

// The list and the place in it together.
#[derive(Clone, Copy)]
pub struct Walk<'a> {
    pub actions: &'a [u8],
    pub at: usize,
}

// What stands at the place: a whole action of 8 bytes, fewer bytes, or nothing; with the place behind it. An `Option` has one case too few.
#[derive(Clone, Copy)]
pub enum Found {
    Action(usize),
    Cut(usize),
    End,
}

pub fn found_at(list: &[u8], at: usize) -> Found
    ensures { result ≡ found_at list.now at }
{
    let n = list.len();
    if n <= at {
        return Found::End;
    }
    // The difference is tested: that the sum fits would lean on how long a slice can be.
    if 8 <= n - at {
        return Found::Action(at + 8);
    }
    Found::Cut(n)
}

// At the end there is nothing to pass, and the place stays.
fn end_at(list: &[u8], at: usize) -> usize
    ensures { result ≡ behind list.now at }
{
    match found_at(list, at) {
        Found::Action(end) => end,
        Found::Cut(end) => end,
        Found::End => at,
    }
}

fn piece_at(list: &[u8], at: usize) -> &[u8]
    ensures { result.now ≡ take 8 (drop at list.now) }
{
    if list.len() <= at {
        return &[];
    }
    let end = end_at(list, at);
    &list[at..end]
}

impl<'a> Walk<'a> {
    pub fn from(actions: &'a [u8], at: usize) -> Self
        ensures { (result.actions ≡ actions.entry) × (result.at ≡ at) }
    {
        Walk { actions, at }
    }

    // What stands at the place.
    pub fn found(&self) -> Found
        ensures { result ≡ found_at self.now.actions.now self.now.at }
    {
        found_at(self.actions, self.at)
    }

    // The bytes that stand there: those of an action, fewer, or none.
    pub fn piece(&self) -> &'a [u8]
        ensures { result.now ≡ take 8 (drop self.now.at self.now.actions.now) }
    {
        piece_at(self.actions, self.at)
    }

    // The place is behind what stood there.
    pub fn advance(&mut self)
        ensures { (self.new.actions ≡ self.old.actions) × (self.new.at ≡ behind self.old.actions.now self.old.at) }
    {
        self.at = end_at(self.actions, self.at);
    }

    pub fn place(&self) -> usize
        ensures { result ≡ self.now.at }
    {
        self.at
    }
}
