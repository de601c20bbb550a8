// Openings verified: the verdict, with the places that a failure names.
ghost use Rattle.std.specs.Prelude.{◌≡◌, [], ◌∷◌};
ghost use Rattle.algebra.specs.Words.{𝔽₁};
ghost use Rattle.verdict.specs.Verdicts.{numbers_of};
ghost use Rattle.verify.specs.Verifying.{verification};
ghost use Rattle.reply.specs.Replies.{triple};

use reply::answer::Reply;
use tvarchula::opening;

// A message of one word, 9.
pub fn depth_0(y: u32, queries: &[u32]) -> Reply
    ensures { result ≡ triple (numbers_of (verification 𝔽₁ 0 2 1 (1 ∷ 1 ∷ []) [] [] (9 ∷ 9 ∷ []) [] y [] queries.now (9 ∷ []))) }
{
    let g = [1u32, 1];
    let none = [0u32; 0];
    let block = [9u32, 9];
    let opened = [9u32];
    let p = print::parameters(0, 2, 1);
    opening::tv_verify_opening(
        false, p, &g, &none, &none, &block, &none, y, &none, queries, &opened,
    )
}

// The opening of 5 + 7 X_0 at z.
pub fn depth_1(z: u32, y: u32, r: u32, queries: &[u32], opened: &[u32]) -> Reply
    ensures { result ≡ triple (numbers_of (verification 𝔽₁ 1 2 1 (1 ∷ 1 ∷ []) (2 ∷ 3 ∷ []) (2147483645 ∷ 2147483644 ∷ []) (19 ∷ 26 ∷ 2147483638 ∷ 2147483631 ∷ []) (z ∷ []) y (r ∷ []) queries.now opened.now)) }
{
    let g = [1u32, 1];
    let t = [2u32, 3];
    let t2 = [2147483645u32, 2147483644];
    let block = [19u32, 26, 2147483638, 2147483631];
    let zs = [z];
    let rs = [r];
    let p = print::parameters(1, 2, 1);
    opening::tv_verify_opening(false, p, &g, &t, &t2, &block, &zs, y, &rs, queries, opened)
}

// The opening of 1 + 2 X_0 + 3 X_1 + 4 X_0 X_1 at (5, 6) with one query.
pub fn depth_2(query: u32, opened: &[u32]) -> Reply
    ensures { result ≡ triple (numbers_of (verification 𝔽₁ 2 2 1 (1 ∷ 1 ∷ []) (2 ∷ 3 ∷ 4 ∷ 5 ∷ 6 ∷ 7 ∷ []) (3 ∷ 4 ∷ 5 ∷ 6 ∷ 7 ∷ 8 ∷ []) (49 ∷ 82 ∷ 97 ∷ 142 ∷ 60 ∷ 97 ∷ 112 ∷ 161 ∷ []) (5 ∷ 6 ∷ []) 149 (7 ∷ 8 ∷ []) (query ∷ []) opened.now)) }
{
    let g = [1u32, 1];
    let t = [2u32, 3, 4, 5, 6, 7];
    let t2 = [3u32, 4, 5, 6, 7, 8];
    let block = [49u32, 82, 97, 142, 60, 97, 112, 161];
    let z = [5u32, 6];
    let r = [7u32, 8];
    let queries = [query];
    let p = print::parameters(2, 2, 1);
    opening::tv_verify_opening(false, p, &g, &t, &t2, &block, &z, 149, &r, &queries, opened)
}
