//! What writes and reads must keep by their numbers alone (RHP2's write actions and read sections).
ghost use Rattle.std.specs.Prelude.{◌≡◌, ◌+◌, ◌*◌, ◌<◌, ◌≤◌, ◌^◌, length, sum_by};
ghost use Rattle.std.specs.List.{list_all};
ghost use Rattle.sia_records.specs.Fitting.{action_fits as fits_action, actions_fit as fit_actions, range_fits as fits_range, section_fits as fits_section, sections_fit as fit_sections};

use sia_encoding::limits::ACTIONS;
use sia_rhp::{Action, Section};

/// How many bytes a leaf has.
const LEAF_LEN: u64 = 64;

/// Whether a range inside a sector of so many bytes is fit: whole leaves, one at least, and within the sector.
pub fn range_fits(sector: u64, offset: u64, len: u64) -> bool
    ensures { result ≡ fits_range sector offset len }
{
    offset % LEAF_LEN == 0
        && len % LEAF_LEN == 0
        && len > 0
        && offset <= sector
        && len <= sector - offset
}

/// Whether an action is fit in itself, in sectors of so many bytes.
fn action_fits(sector: u64, action: &Action) -> bool
    ensures { result ≡ fits_action sector action.now }
{
    match action {
        Action::Append(bytes) => bytes.len() as u64 == sector,
        Action::Trim(_) | Action::Swap(_, _) => true,
        Action::Update { offset, bytes, .. } => range_fits(sector, *offset, bytes.len() as u64),
    }
}

/// Whether each action is fit in itself.
fn each_action_fits(sector: u64, actions: &[Action]) -> bool
    ensures { result ≡ list_all (fits_action sector) actions.now }
{
    actions.iter().all(|action| action_fits(sector, action))
}

/// Whether the actions of a write are fit in themselves, in sectors of so many bytes: at most 16, each appended sector whole and
/// each updated range fit.
pub fn actions_fit(sector: u64, actions: &[Action]) -> bool
    ensures { result ≡ fit_actions sector actions.now }
{
    actions.len() as u64 <= ACTIONS && each_action_fits(sector, actions)
}

/// Whether a section is a range that is fit, in sectors of so many bytes.
pub(crate) fn section_fits(sector: u64, section: &Section) -> bool
    ensures { result ≡ fits_section sector section.now }
{
    range_fits(sector, section.offset, section.length)
}

/// Whether each section is a range that is fit.
fn each_section_fits(sector: u64, sections: &[Section]) -> bool
    ensures { result ≡ list_all (fits_section sector) sections.now }
{
    sections.iter().all(|section| section_fits(sector, section))
}

/// How many bytes so few sections have together.
fn section_bytes(sections: &[Section]) -> u128
    requires { length sections.now ≤ ACTIONS }
    ensures { result ≡ sum_by (λ section. section.length) sections.now }
{
    let mut total = 0u128;
    for section in sections {
        total += section.length as u128;
    }
    total
}

/// Whether the sections of a read are fit, in sectors of so many bytes: 1 to 16, each a range that is fit, and together no more
/// bytes than four sectors have.
pub fn sections_fit(sector: u64, sections: &[Section]) -> bool
    ensures { result ≡ fit_sections sector sections.now }
{
    !sections.is_empty()
        && sections.len() as u64 <= ACTIONS
        && each_section_fits(sector, sections)
        && section_bytes(sections) <= 4 * sector as u128
}
