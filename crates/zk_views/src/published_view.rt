ghost use Rattle.std.specs.Prelude.{◌≡◌, ◌≢◌, ◌<◌, ◌+◌, ◌-◌, ◌^◌, ℕ, All, false, length, map, drop, IfOk, slice_index_or};
ghost use Rattle.zk_views.specs.Catching.{AreOfOneView, AreOfServers, HasCaughtUp, IsUnpublished, MayCatchUp};

use crate::publisher::Publisher;
use crate::reader::Reader;
use std::alloc::Global;
use std::mem::ManuallyDrop;
use std::sync::Wait;
use zk_jute::Span;
use zk_path::NoMemory;

/// The view of a server. It is late if an allocation failed in the last try to publish.
pub struct PublishedView {
    publisher: ManuallyDrop<Publisher>,
    late: bool,
}

impl Drop for PublishedView {
    fn drop(self) {
        let PublishedView {
            publisher: _,
            late: _,
        } = self;
    }
}

impl PublishedView {
    pub fn new(publisher: Publisher) -> PublishedView
        ensures { result ≡ record { publisher = record { value = publisher }; late = false } }
    {
        // `close` ends it. One that is dropped leaks its view, which is safe.
        let publisher = unsafe { ManuallyDrop::new_unchecked(publisher) };
        PublishedView {
            publisher,
            late: false,
        }
    }

    /// Publishes what the server has delivered beyond the view's list. If an allocation fails, what
    /// is published stays, the view is late, and the next try publishes the rest.
    pub fn catch_up<R: Wait>(&mut self, rt: &R, alloc: Global, delivered: Span<'_>)
        requires { MayCatchUp self.old.publisher.value delivered }
        ensures { HasCaughtUp self.old.publisher.value delivered.entry self.new.publisher.value self.new.late }
    {
        let offered = self.publisher.offered();
        let more = beyond(&delivered, offered);
        self.late = self.publisher.publish_read(rt, alloc, &more).is_err();
    }

    /// Closes the view: no reader enters it any more.
    pub fn close<R: Wait>(self, rt: &R) {
        let PublishedView { publisher, late: _ } = self;
        ManuallyDrop::into_inner(publisher).close(rt);
    }
}

/// The transactions after the first `count`; none if there are fewer.
fn beyond<'a>(delivered: &Span<'a>, count: usize) -> Span<'a>
    ensures beyond { result ≡ drop count delivered.now }
    ensures room { count + length result < 2 ^ 64 }
{
    if count < delivered.len() {
        delivered.behind(count)
    } else {
        Span::none()
    }
}

/// Lets the view of the server with this number catch up, if there is one.
pub fn catch_up_at<R: Wait>(
    rt: &R,
    views: &mut Vec<PublishedView>,
    number: usize,
    delivered: Span<'_>,
)
    requires { (d : PublishedView) → 0 < number → number - 1 < length views.old.items → MayCatchUp (slice_index_or views.old.items (number - 1) d).publisher.value delivered }
    ensures long { length views.new.items ≡ length views.old.items }
    ensures others { (place : ℕ) (d : PublishedView) → place + 1 ≢ number → slice_index_or views.new.items place d ≡ slice_index_or views.old.items place d }
    ensures here { (d : PublishedView) → 0 < number → number - 1 < length views.old.items → (let kept = slice_index_or views.new.items (number - 1) d in HasCaughtUp (slice_index_or views.old.items (number - 1) d).publisher.value delivered.entry kept.publisher.value kept.late) }
{
    if number > 0 && number - 1 < views.len() {
        let alloc = *views.allocator();
        views[number - 1].catch_up(rt, alloc, delivered);
    }
}

/// Views in which nothing is published, and the readers of each.
pub struct Viewed {
    pub views: Vec<PublishedView>,
    pub readers: Vec<Vec<Reader>>,
}

/// Creates `count` views with `readers` readers each; no views for 0 readers.
pub fn views_of<R: Wait>(
    rt: &R,
    alloc: Global,
    count: usize,
    readers: usize,
) -> Result<Viewed, NoMemory>
    requires { readers < 2 ^ 32 }
    ensures each { IfOk result (λ it. AreOfServers count it.views.items) }
    ensures views { IfOk result (λ it. All IsUnpublished it.views.items) }
    ensures long { IfOk result (λ it. length it.readers.items ≡ count) }
    ensures readers { IfOk result (λ it. All (AreOfOneView readers) (map (λ list. list.items) it.readers.items)) }
{
    if readers == 0 {
        unread_views(alloc, count)
    } else {
        read_views(rt, alloc, count, readers)
    }
}

/// Creates no views, and for each server an empty list of readers.
fn unread_views(alloc: Global, count: usize) -> Result<Viewed, NoMemory>
    ensures each { IfOk result (λ it. AreOfServers count it.views.items) }
    ensures views { IfOk result (λ it. All IsUnpublished it.views.items) }
    ensures long { IfOk result (λ it. length it.readers.items ≡ count) }
    ensures readers { IfOk result (λ it. All (AreOfOneView 0) (map (λ list. list.items) it.readers.items)) }
{
    let mut readers = Vec::new(alloc);
    readers.reserve(count)?;
    for _ in 0..count {
        readers.push_reserved(Vec::new(alloc));
    }
    Ok(Viewed {
        views: Vec::new(alloc),
        readers,
    })
}

/// Creates `count` views with `readers` readers each.
fn read_views<R: Wait>(
    rt: &R,
    alloc: Global,
    count: usize,
    readers: usize,
) -> Result<Viewed, NoMemory>
    requires { (0 < readers) × (readers < 2 ^ 32) }
    ensures each { IfOk result (λ it. AreOfServers count it.views.items) }
    ensures views { IfOk result (λ it. All IsUnpublished it.views.items) }
    ensures long { IfOk result (λ it. length it.readers.items ≡ count) }
    ensures readers { IfOk result (λ it. All (AreOfOneView readers) (map (λ list. list.items) it.readers.items)) }
{
    let mut views = Vec::new(alloc);
    views.reserve(count)?;
    let mut all = Vec::new(alloc);
    all.reserve(count)?;
    for _ in 0..count {
        match Publisher::start(rt, alloc, readers) {
            Ok((publisher, ends)) => {
                views.push_reserved(PublishedView::new(publisher));
                all.push_reserved(ends);
            }
            Err(refused) => {
                close_all(rt, views);
                return Err(refused);
            }
        }
    }
    Ok(Viewed {
        views,
        readers: all,
    })
}

/// Closes views. A `Vec` of elements that are not `Drop` cannot be dropped, even empty; one of
/// `ManuallyDrop` can.
pub fn close_all<R: Wait>(rt: &R, views: Vec<PublishedView>) {
    let mut views = views;
    while let Some(kept) = views.pop() {
        kept.close(rt);
    }
}
