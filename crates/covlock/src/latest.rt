//! The latest news of a job.

ghost use Rattle.std.specs.Prelude.{◌≡◌, ◌<◌, length};
ghost use Rattle.covbook.specs.Kept.{IsPrefix};
ghost use Rattle.covlock.specs.Latest.{history_of};

use covnews::{Name, News};

/// Returns a copy of `news`, whose history must be longer than that of `latest`. The longer history extends the shorter one.
pub(crate) fn later<L: Name>(latest: &Option<News<L>>, news: &News<L>) -> News<L>
    requires { length (history_of latest.now) < length news.now }
    ensures same { result ≡ news.now }
    ensures onward { IsPrefix (history_of latest.now) result }
{
    match latest {
        Some(latest) => latest.longer(news),
        None => news.copy(),
    }
}

/// Returns the news with the longer history, of `news` and of `latest` if there are any. The longer history extends the shorter one.
pub(crate) fn longest<L: Name>(news: News<L>, latest: &Option<News<L>>) -> News<L>
    ensures news { IsPrefix news result }
    ensures latest { IsPrefix (history_of latest.now) result }
{
    match latest {
        Some(latest) => news.longer(latest),
        None => news,
    }
}
