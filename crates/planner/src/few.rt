// Elements in order, no more than a program has steps: steps that are chosen from, or numbers of a program's steps.
ghost use Rattle.std.specs.Prelude.{◌≡◌, Bool, ◌+◌, ◌≤◌, ◌<◌, [], length, set, take};
ghost use Rattle.std.specs.Fn.{FnReturnsAt};
ghost use Rattle.ground.specs.Lists.{filter};
ghost use Rattle.planner.specs.Few.{shown_few};

// The places behind the count hold what stands behind a list.
#[derive(Clone, Copy)]
pub(crate) struct Few<T> {
    pub count: u8,
    pub all: [T; 156],
}

impl<T: Copy> Few<T> {
    pub(crate) fn empty(behind: T) -> Few<T>
        ensures { result ≡ shown_few behind [] }
    {
        Few {
            count: 0,
            all: [behind; 156],
        }
    }

    // Those that there are.
    pub(crate) fn listed(&self) -> &[T]
        ensures { result.now ≡ take self.now.count self.now.all }
    {
        ground::used::first(&self.all, self.count)
    }

    pub(crate) fn push(&mut self, value: T)
        requires { self.old.count < 156 }
        ensures { self.new ≡ record { count = self.old.count + 1; all = set self.old.all self.old.count value } }
    {
        let slot = self.count as usize;
        self.all[slot] = value;
        self.count += 1;
    }

    // Of some elements those that pass.
    pub(crate) fn sifted<F: Fn(&T) -> bool>(some: &[T], behind: T, passes: F) -> Few<T>
        requires { (length some.now ≤ 156) × F.IsAlwaysCallable passes }
        ensures { (p : T → Bool) → ((x : T) (b : Bool) → FnReturnsAt F.Fn passes x b → b ≡ p x) → result ≡ shown_few behind (filter p some.now) }
    {
        let mut few = Few::empty(behind);
        for value in some {
            if passes(value) {
                few.push(*value);
            }
        }
        few
    }
}
