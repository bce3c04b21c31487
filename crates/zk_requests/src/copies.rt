//! Copies of calls.

ghost use Rattle.std.specs.Prelude.{◌≡◌, IfOk};
ghost use Rattle.zk_requests.specs.declared.call.Part.TheVariants as asked;
ghost use Rattle.zk_requests.specs.declared.call.Request.TheVariants as requests;

use crate::call::{Call, Part, Parts, Request};
use zk_acl::{Acls, Text};
use zk_path::NoMemory;
use zk_table::Content;

impl Part {
    pub fn copy(&self) -> Result<Part, NoMemory>
        ensures { IfOk result (λ copy. copy ≡ self.now) }
    {
        match self {
            Part::Create {
                path,
                content,
                acl,
                flags,
            } => create_part(path, content, acl, *flags),
            Part::Delete { path, version } => Ok(Part::Delete {
                path: path.copy()?,
                version: *version,
            }),
            Part::SetData {
                path,
                content,
                version,
            } => set_data_part(path, content, *version),
            Part::Check { path, version } => Ok(Part::Check {
                path: path.copy()?,
                version: *version,
            }),
        }
    }
}

fn create_part(
    path: &Text,
    content: &Option<Content>,
    acl: &Acls,
    flags: i32,
) -> Result<Part, NoMemory>
    ensures { IfOk result (λ part. part ≡ asked.Create path.now content.now acl.now flags) }
{
    let path = path.copy()?;
    let content = Content::copy_of(content)?;
    let acl = acl.copy()?;
    Ok(Part::Create {
        path,
        content,
        acl,
        flags,
    })
}

fn set_data_part(path: &Text, content: &Option<Content>, version: i32) -> Result<Part, NoMemory>
    ensures { IfOk result (λ part. part ≡ asked.SetData path.now content.now version) }
{
    let path = path.copy()?;
    let content = Content::copy_of(content)?;
    Ok(Part::SetData {
        path,
        content,
        version,
    })
}

impl Request {
    pub fn copy(&self) -> Result<Request, NoMemory>
        ensures { IfOk result (λ copy. copy ≡ self.now) }
    {
        match self {
            Request::Create {
                path,
                content,
                acl,
                flags,
            } => create_request(path, content, acl, *flags),
            Request::Delete { path, version } => Ok(Request::Delete {
                path: path.copy()?,
                version: *version,
            }),
            Request::SetData {
                path,
                content,
                version,
            } => set_data_request(path, content, *version),
            Request::SetAcl { path, acl, version } => set_acl_request(path, acl, *version),
            Request::Multi { parts } => Ok(Request::Multi {
                parts: parts.copy()?,
            }),
            Request::OpenSession { timeout } => Ok(Request::OpenSession { timeout: *timeout }),
            Request::CloseSession => Ok(Request::CloseSession),
        }
    }
}

fn create_request(
    path: &Text,
    content: &Option<Content>,
    acl: &Acls,
    flags: i32,
) -> Result<Request, NoMemory>
    ensures { IfOk result (λ request. request ≡ requests.Create path.now content.now acl.now flags) }
{
    let path = path.copy()?;
    let content = Content::copy_of(content)?;
    let acl = acl.copy()?;
    Ok(Request::Create {
        path,
        content,
        acl,
        flags,
    })
}

fn set_data_request(
    path: &Text,
    content: &Option<Content>,
    version: i32,
) -> Result<Request, NoMemory>
    ensures { IfOk result (λ request. request ≡ requests.SetData path.now content.now version) }
{
    let path = path.copy()?;
    let content = Content::copy_of(content)?;
    Ok(Request::SetData {
        path,
        content,
        version,
    })
}

fn set_acl_request(path: &Text, acl: &Acls, version: i32) -> Result<Request, NoMemory>
    ensures { IfOk result (λ request. request ≡ requests.SetAcl path.now acl.now version) }
{
    let path = path.copy()?;
    let acl = acl.copy()?;
    Ok(Request::SetAcl { path, acl, version })
}

impl Call {
    pub fn copy(&self) -> Result<Call, NoMemory>
        ensures { IfOk result (λ copy. copy ≡ self.exit.now) }
    {
        let auths = self.auths.copy()?;
        let request = self.request.copy()?;
        Ok(Call {
            auths,
            request,
            ..*self
        })
    }
}
