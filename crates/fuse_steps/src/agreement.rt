//! What is agreed on with the kernel.
ghost use Rattle.std.specs.Prelude.{◌≡◌};
ghost use Rattle.fuse_plans.specs.Serving.{keeping_flags, wanted_flags, pages, terms, agreed, offers_acls};

use bitflags::Flags as _;
use fuse_plans::ReplyBody;
use fuse_protocol::{InitFlags, Offer, Terms};
use fuse_state::Settings;

// So many requests may wait, and from so many on the kernel holds back.
const MAX_BACKGROUND: u16 = 16;

const CONGESTION_THRESHOLD: u16 = 12;

// Of so many bytes each write may be that has a page.
const PAGE: u32 = 4096;

// What more is wanted where the kernel may keep pages.
fn keeping_flags(settings: Settings) -> u32
    ensures { result ≡ keeping_flags settings }
{
    if settings.keeping.pages {
        InitFlags::ASYNC_READ.bits()
            + InitFlags::PARALLEL_DIROPS.bits()
            + InitFlags::CACHE_SYMLINKS.bits()
            + InitFlags::HANDLE_KILLPRIV_V2.bits()
    } else {
        0
    }
}

// What is wanted of what the kernel offers.
fn wanted_flags(settings: Settings) -> u32
    ensures { result ≡ wanted_flags settings }
{
    let always = InitFlags::ATOMIC_O_TRUNC.bits()
        + InitFlags::DONT_MASK.bits()
        + InitFlags::HANDLE_KILLPRIV.bits();
    let large = if settings.max_write > PAGE {
        InitFlags::BIG_WRITES.bits() + InitFlags::MAX_PAGES.bits()
    } else {
        0
    };
    let acls = if settings.posix_acl {
        InitFlags::POSIX_ACL.bits()
            + InitFlags::DO_READDIRPLUS.bits()
            + InitFlags::READDIRPLUS_AUTO.bits()
    } else {
        0
    };
    always + large + acls + keeping_flags(settings)
}

// How many pages a large write has.
fn pages(settings: Settings) -> u16
    ensures { result ≡ pages settings }
{
    if settings.max_write <= PAGE {
        return 0;
    }
    let pages = (u64::from(settings.max_write) + 4095) / 4096;
    pages.min(65_535) as u16
}

/// The reply to INIT with these terms.
pub fn terms(max_readahead: u32, flags: u32, max_write: u32, max_pages: u16) -> ReplyBody
    ensures { result ≡ terms max_readahead flags max_write max_pages }
{
    ReplyBody::Agreed(Terms {
        max_readahead,
        flags: InitFlags::from_bits_retain(flags),
        max_background: MAX_BACKGROUND,
        congestion_threshold: CONGESTION_THRESHOLD,
        max_write,
        max_pages,
    })
}

/// What is agreed on.
pub fn agreed(offer: &Offer, settings: Settings) -> ReplyBody
    ensures { result ≡ agreed offer.now settings }
{
    terms(
        offer.max_readahead,
        offer.flags.bits() & wanted_flags(settings),
        settings.max_write,
        pages(settings),
    )
}

/// Whether the kernel offers to judge by ACLs.
pub fn offers_acls(offer: &Offer) -> bool
    ensures { result ≡ offers_acls offer.now }
{
    offer.flags.bits() & InitFlags::POSIX_ACL.bits() != 0
}
