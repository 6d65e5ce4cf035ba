// A case on standard input: 48 bytes of name, some numbers of two bytes each, the last of them the length of its file, and the file.
ghost use Rattle.std.specs.Prelude.{◌≡◌, ◌≤◌, ◌+◌, length};
ghost use Rattle.std.specs.Iterator.{at_most};
ghost use Rattle.cases.specs.Case.{IsNextCase, two_at, after_case, name_of, number_of, file_of};

const NAME_BYTES: usize = 48;

// The number in two bytes, the high one first.
pub fn two(s: &[u8], at: usize) -> usize
    requires { at + 2 ≤ length s.now }
    ensures { (result ≡ two_at s.now at) × (result ≤ 65535) }
{
    usize::from(s[at]) * 256 + usize::from(s[at + 1])
}

// The place after the case at `at` that has so many numbers; `at`, where there is no whole one.
// The place again and no Option: it is public, and `after_case` says so.
#[tactic(auto, unfolding(crate::specs::Case::after_case))]
pub fn after(input: &[u8], at: usize, numbers: usize) -> usize
    requires place { at ≤ length input.now }
    requires few { numbers ≤ 3 }
    ensures { (result ≡ after_case input.now at numbers) × (result ≤ length input.now) }
{
    let head = NAME_BYTES + 2 * numbers;
    if input.len() - at < head {
        return at;
    }
    let file = at + head;
    let len = two(input, file - 2);
    if input.len() - file < len {
        return at;
    }
    file + len
}

pub fn name(case: &[u8]) -> &[u8]
    ensures { result.now ≡ name_of case.now }
{
    let n = NAME_BYTES.min(case.len());
    &case[..n]
}

// Number k of the case, counted from 0; 0 where it is not there.
// 0 and no Option: it is public, and `number_of` says so.
#[tactic(auto, unfolding(crate::specs::Case::number_of))]
pub fn number(case: &[u8], k: usize) -> usize
    requires { k ≤ 3 }
    ensures { (result ≡ number_of case.now k) × (result ≤ 65535) }
{
    let at = NAME_BYTES + 2 * k;
    if case.len() < at + 2 {
        return 0;
    }
    two(case, at)
}

// The file of a case that has so many numbers.
pub fn file(case: &[u8], numbers: usize) -> &[u8]
    requires { numbers ≤ 3 }
    ensures { result.now ≡ file_of case.now numbers }
{
    let head = case.len().min(NAME_BYTES + 2 * numbers);
    &case[head..]
}

// The cases of an input, one after the other, each of so many numbers. What is left behind the last whole one is no case.
#[derive(Drop)]
pub struct Cases<'a> {
    rest: &'a [u8],
    numbers: usize,

    ghost few: { numbers ≤ 3 },
}

impl<'a> Cases<'a> {
    pub fn of(input: &'a [u8], numbers: usize) -> Cases<'a>
        requires { numbers ≤ 3 }
        ensures rest { result.rest.now ≡ input.now }
        ensures numbers { result.numbers ≡ numbers }
    {
        Cases {
            rest: input,
            numbers,
        }
    }
}

impl<'a> Iterator for Cases<'a> {
    type Item = &'a [u8];

    ghost next_gives = { λ s r t. (t.numbers ≡ s.numbers) × IsNextCase s.rest.now s.numbers r t.rest.now };

    ghost remaining = { λ s. at_most (length s.rest.now) };

    #[tactic(auto, unfolding(crate::specs::Case::IsNextCase))]
    fn next(&mut self) -> Option<&'a [u8]> {
        let end = after(self.rest, 0, self.numbers);
        if end == 0 {
            return None;
        }
        let (case, rest) = self.rest.split_at(end);
        self.rest = rest;
        Some(case)
    }
}
