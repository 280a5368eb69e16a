// The pages of a generated trace: what is written at once.
ghost use Rattle.std.specs.Prelude.{◌≡◌, ◌≤◌, ◌<◌, ◌+◌, ◌++◌, length};
ghost use Rattle.lk_text.specs.Page.{page_text};
ghost use Rattle.lk_gen.specs.Generated.{next_draw, draw_after};
ghost use Rattle.lk_gen.specs.Writes.{pair_text, pairs_text, program_text, step_text, steps_text};

use lk_text::Page;

// The draw behind a draw. They are those of the generator of Lehmer, Park and Miller.
#[tactic(auto, unfolding(crate::specs::Generated::next_draw))]
fn next_draw(draw: u32) -> u32
    ensures { result ≡ next_draw draw }
{
    (48_271 * u64::from(draw) % 2_147_483_647) as u32
}

// Adds a pair of operations on a lock.
#[tactic(auto, using(crate::proofs::Sizes::one_digit))]
fn add_pair(page: &mut Page, lock: u32)
    requires lock { lock < 4 }
    requires room { length (page_text page.old) + 16 ≤ 1024 }
    ensures text { page_text page.new ≡ page_text page.old ++ pair_text lock }
    ensures size { length (page_text page.new) ≤ length (page_text page.old) + 16 }
{
    page.word(b" lock ");
    page.number(u64::from(lock));
    page.word(b" unlock ");
    page.number(u64::from(lock));
}

// Adds a line of the schedule.
#[tactic(auto, using(crate::proofs::Sizes::two_digits))]
fn add_step(page: &mut Page, processor: u32)
    requires processor { processor < 32 }
    requires room { length (page_text page.old) + 10 ≤ 1024 }
    ensures text { page_text page.new ≡ page_text page.old ++ step_text processor }
    ensures size { length (page_text page.new) ≤ length (page_text page.old) + 10 }
{
    page.word(b"step ");
    page.number(u64::from(processor));
    page.word(b" 8\n");
}

// Adds the sixteen pairs of a program, and gives the last draw.
fn add_pairs(page: &mut Page, start: u32) -> u32
    requires { length (page_text page.old) ≤ 512 }
    ensures draw { result ≡ draw_after 16 start }
    ensures text { page_text page.new ≡ page_text page.old ++ pairs_text 16 start }
    ensures size { length (page_text page.new) ≤ length (page_text page.old) + 256 }
{
    let mut draw = start;
    for _pair in 0..16u32 {
        draw = next_draw(draw);
        add_pair(page, draw % 4);
    }
    draw
}

/// The page of this text.
pub(crate) fn page_of(text: &[u8]) -> Page
    requires { length text.now ≤ 1024 }
    ensures { page_text result ≡ text.now }
{
    let mut page = Page::new();
    page.word(text);
    page
}

/// The line of a program, and the last of its draws.
#[tactic(auto, using(crate::proofs::Sizes::two_digits))]
pub(crate) fn program_page(processor: u32, start: u32) -> (Page, u32)
    requires { processor < 32 }
    ensures text { page_text result.0 ≡ program_text processor start }
    ensures draw { result.1 ≡ draw_after 16 start }
{
    let mut page = Page::new();
    page.word(b"prog ");
    page.number(u64::from(processor));
    let draw = add_pairs(&mut page, start);
    page.word(b"\n");
    (page, draw)
}

/// A hundred lines of the schedule, and the last of their draws.
pub(crate) fn steps_page(start: u32) -> (Page, u32)
    ensures text { page_text result.0 ≡ steps_text 100 start }
    ensures draw { result.1 ≡ draw_after 100 start }
{
    let mut page = Page::new();
    let mut draw = start;
    for _step in 0..100u32 {
        draw = next_draw(draw);
        add_step(&mut page, draw % 32);
    }
    (page, draw)
}
