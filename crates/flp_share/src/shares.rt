//! An encoding is split into shares, and shares are summed up.
ghost use Rattle.std.specs.Prelude.{◌≡◌, ◌-◌, ◌*◌, ◌≤◌, [], length, slice_index, EachIndex};
ghost use Rattle.flp_field.specs.Word.{word_sum};
ghost use Rattle.flp_field.specs.Sums.{sum_of_lists, sum_of_parts};
ghost use Rattle.flp_share.specs.Adding.{AddsList};
ghost use Rattle.flp_share.specs.Shares.{difference_of, shares_of};

use flp_field::Fe;

/// Writes the shares of an encoding to `out`, share 0 first.
///
/// With n words in `x`, `words` has n words for each share from 1 on, in their order, and `out` has n
/// places for each share. Share 0 is `x` minus the sum of the others.
pub fn split(x: &[Fe], words: &[Fe], shares: u32, out: &mut [Fe])
    requires some { 2 ≤ shares }
    requires few { shares ≤ 16 }
    requires words { length words.now ≡ (shares - 1) * length x.now }
    requires room { length out.old ≡ shares * length x.now }
    ensures shares { out.new ≡ shares_of shares x.now words.now }
    ensures sum { sum_of_parts shares (length x.now) out.new ≡ x.now }
{
    let (first, others) = out.split_at_mut(x.len());
    others.copy_from_slice(words);
    unshare(words, shares - 1, first);
    subtract_from(x, first);
}

/// Writes the sum of the shares to `out`, word by word. With n places in `out`, `parts` has n words for
/// each share, one share after another.
pub fn unshare(parts: &[Fe], shares: u32, out: &mut [Fe])
    requires { length parts.now ≡ shares * length out.old }
    ensures { out.new ≡ sum_of_parts shares (length out.old) parts.now }
{
    clear(out);
    let mut rest = parts;
    for _ in 0..shares {
        let (part, behind) = rest.split_at(out.len());
        add_to(part, out);
        rest = behind;
    }
}

/// Makes `sum` the sum of no lists: each word is 0.
pub fn clear(sum: &mut [Fe])
    ensures { sum.new ≡ sum_of_lists (length sum.old) [] }
{
    sum.fill(Fe::ZERO);
}

/// Adds a list of words to a sum, word by word: the sum of some lists becomes that of these and of `words`.
pub fn add_to(words: &[Fe], sum: &mut [Fe])
    requires { length words.now ≡ length sum.old }
    ensures { AddsList words.now sum.old sum.new }
{
    for (k, word) in sum.iter_mut().enumerate() {
        *word = word.add(words[k]);
    }
}

/// Puts in place of each word the word of `whole` with the same index minus it.
fn subtract_from(whole: &[Fe], words: &mut [Fe])
    requires { length whole.now ≡ length words.old }
    ensures difference { words.new ≡ difference_of whole.now words.old }
    ensures undone { EachIndex whole.now (λ k. word_sum (slice_index words.new k) (slice_index words.old k) ≡ slice_index whole.now k) }
{
    for (k, word) in words.iter_mut().enumerate() {
        *word = whole[k].sub(*word);
    }
}
