// Looking entries up by the codes of their prefixes, and the tests 8 and 9 of a scheme list in
// memory. The codes of all entries are made once and lent, so that no scheme is handed down.
ghost use Rattle.std.specs.Prelude.{◌+◌, ◌-◌, ◌≤◌, ◌<◌, ◌≡◌, true, false, [], ◌∷◌, length, get_or, take};
ghost use Rattle.word.specs.Ceilings.{ENTRIES, PREFIX};
ghost use Rattle.word.specs.Word.{is_perm, bump};
ghost use Rattle.word.specs.Vocabulary.{unbump};
ghost use Rattle.cell.specs.Cell.{deleted};
ghost use Rattle.cell.specs.Child.{child_at};
ghost use Rattle.forms.specs.Codes.{Codes, IsCode};
ghost use Rattle.forms.specs.SchemeList.{deletes};
ghost use Rattle.forms.specs.SchemeMemory.{padded, entry_in, scheme_in, fault_of};
ghost use Rattle.scheme.specs.WellFormed.{outside, child_test, target_test};
ghost use Rattle.scheme.specs.Links.{
  find_code,
  found_of,
  prefixes_in,
  FindsIn,
  ListedIn,
  ChildlessIn,
  LacksChildIn,
  LacksTargetIn,
  Short,
  LinkedEntry,
  Linked,
};

use forms::codes::code_of;
use forms::memory::{Entry, Rule, Scheme};
use forms::order::noted;
use word::limits::{ENTRIES, PREFIX};
use word::refusal::{Refusal, Refused};

// The codes of the prefixes of all entries, and zeros after them.
pub fn codes_of(s: Scheme) -> [u64; ENTRIES]
    requires { Short s }
    ensures { (length result ≡ ENTRIES) × Codes (prefixes_in s) (take s.count result) }
{
    let mut codes = [0u64; ENTRIES];
    for i in 0..s.count {
        codes[i] = entry_code(s.entries[i]);
    }
    codes
}

// The code of the prefix of an entry.
pub fn entry_code(e: Entry) -> u64
    requires { e.length ≤ PREFIX }
    ensures { IsCode (padded e.length e.prefix) result }
{
    code_of(&e.prefix[..e.length])
}

// The first of the codes that is this one.
fn find(codes: &[u64], code: u64) -> Option<usize>
    ensures { result ≡ found_of (find_code codes.now code) }
{
    for (i, x) in codes.iter().enumerate() {
        if code == *x {
            return Some(i);
        }
    }
    None
}

// The first entry that has a prefix, by the codes of all entries.
pub fn find_prefix(codes: &[u64], prefix: &[u8]) -> Option<usize>
    requires { length prefix.now ≤ PREFIX }
    ensures { FindsIn codes.now prefix.now result }
{
    find(codes, code_of(prefix))
}

// Whether an entry has the prefix.
pub fn has_entry(codes: &[u64], prefix: &[u8]) -> bool
    requires { length prefix.now ≤ PREFIX }
    ensures { ListedIn codes.now prefix.now result }
{
    find_prefix(codes, prefix).is_some()
}

// The digits of the child of a prefix whose last entry is a.
pub fn child(prefix: &[u8], a: u8) -> [u8; PREFIX]
    requires { (length prefix.now < PREFIX) × (is_perm prefix.now ≡ true) }
    ensures { take (length prefix.now + 1) result ≡ child_at prefix.now a }
{
    let mut digits = [0u8; PREFIX];
    for (j, y) in prefix.iter().enumerate() {
        digits[j] = raised(a, *y);
    }
    digits[prefix.len()] = a;
    digits
}

// The shorter prefix: what is left of a prefix without some of its positions, reduced. The last
// position goes first, so that the others stay where they are.
pub fn shorter(prefix: &[u8], positions: &[u8]) -> [u8; PREFIX]
    requires { (length prefix.now ≤ PREFIX) × (length positions.now ≤ length prefix.now) × (is_perm prefix.now ≡ true) ×
        (outside (length prefix.now) (deletes positions.now) ≡ false) }
    ensures { take (length prefix.now - length positions.now) result ≡ deleted positions.now prefix.now }
{
    let mut digits = [0u8; PREFIX];
    digits[..prefix.len()].copy_from_slice(prefix);
    let mut n = prefix.len();
    for t in (0..positions.len()).rev() {
        digits = without_position(&digits[..n], usize::from(positions[t]));
        n -= 1;
    }
    digits
}

// The digits that are left of a prefix without its position r, reduced: the larger values are
// lowered by one.
fn without_position(prefix: &[u8], r: usize) -> [u8; PREFIX]
    requires { (1 ≤ r) × (r ≤ length prefix.now) × (length prefix.now ≤ PREFIX) × (is_perm prefix.now ≡ true) }
    ensures { take (length prefix.now - 1) result ≡ deleted (r ∷ []) prefix.now }
{
    let at = r - 1;
    let v = prefix[at];
    let mut digits = [0u8; PREFIX];
    for j in 0..prefix.len() - 1 {
        digits[j] = lowered(v, kept(prefix, at, j));
    }
    digits
}

// The value y without the value v: it moves down by one from v on.
fn lowered(v: u8, y: u8) -> u8
    requires { 1 ≤ y }
    ensures { result ≡ unbump v y }
{
    if y < v { y } else { y - 1 }
}

// The digit with index j of those that are left without the one with index `at`.
fn kept(prefix: &[u8], at: usize, j: usize) -> u8
    requires { j + 1 < length prefix.now }
    ensures { result ≡ get_or prefix.now (bump at j) 0 }
{
    if j < at { prefix[j] } else { prefix[j + 1] }
}

// The value y beside a new value a: it moves up by one from a on.
fn raised(a: u8, y: u8) -> u8
    requires { y < 255 }
    ensures { result ≡ bump a y }
{
    if y < a { y } else { y + 1 }
}

// Whether a child of a prefix has no entry. The children of a longest prefix have none.
fn childless(codes: &[u64], prefix: &[u8]) -> bool
    requires { (length prefix.now ≤ PREFIX) × (is_perm prefix.now ≡ true) }
    ensures { ChildlessIn codes.now prefix.now result }
{
    let k = prefix.len();
    if k == PREFIX {
        return true;
    }
    let last = k as u8 + 1;
    for a in 1..last + 1 {
        let q = child(prefix, a);
        if !has_entry(codes, &q[..k + 1]) {
            return true;
        }
    }
    false
}

// Whether an expanding entry lacks a child.
fn lacks_child(codes: &[u64], e: Entry) -> bool
    requires { LinkedEntry e }
    ensures { LacksChildIn codes.now (entry_in e) result }
{
    match e.rule {
        Rule::Expand => childless(codes, &e.prefix[..e.length]),
        Rule::Delete(_) => false,
    }
}

// Whether the shorter prefix of a deleting entry has no entry.
fn lacks_target(codes: &[u64], e: Entry) -> bool
    requires { LinkedEntry e }
    ensures { LacksTargetIn codes.now (entry_in e) result }
{
    match e.rule {
        Rule::Expand => false,
        Rule::Delete(d) => {
            let positions = d.as_slice();
            let q = shorter(&e.prefix[..e.length], positions);
            !has_entry(codes, &q[..e.length - positions.len()])
        }
    }
}

// What the tests 8 and 9 find: the first expanding entry that lacks a child, and the first deleting
// entry whose shorter prefix has no entry.
#[derive(Clone, Copy)]
pub struct LinkFaults {
    pub child: Result<(), Refused>,
    pub target: Result<(), Refused>,
}

// The tests 8 and 9 over all entries, in one pass.
pub fn link_faults(s: Scheme, codes: &[u64]) -> LinkFaults
    requires { Linked s × Codes (prefixes_in s) codes.now }
    ensures { (result.child ≡ fault_of (child_test (scheme_in s))) × (result.target ≡ fault_of (target_test (scheme_in s))) }
{
    let mut child = Ok(());
    let mut target = Ok(());
    for i in 0..s.count {
        let e = s.entries[i];
        child = noted(child, lacks_child(codes, e), Refusal::Childless, i);
        target = noted(target, lacks_target(codes, e), Refusal::NoTarget, i);
    }
    LinkFaults { child, target }
}
