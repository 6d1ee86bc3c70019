// Copies of the parts of a head.
ghost use Rattle.std.specs.Prelude.{◌≡◌, IfOk, map};
ghost use Rattle.arrow_decode.specs.Seen.{dictionary_seen};
ghost use Rattle.arrow_read.specs.Seen.{head_seen};

use crate::FileHead;
use arrow_decode::DictColumn;
use arrow_meta::{Columns, FieldMeta, Pairs, RecordMeta, Schema};
use col_text::{TextBuilder, TextCol};
use std::alloc::Global;
use sub_types::NoMemory;

impl FileHead {
    /// An equal head.
    pub fn copy(&self, alloc: Global) -> Result<FileHead, NoMemory>
        ensures { IfOk result (λ head. head_seen head ≡ head_seen self.now) }
    {
        Ok(FileHead {
            schema: schema_copy(alloc, &self.schema)?,
            blocks: self.blocks.to_vec(alloc)?,
            metas: metas_copy(alloc, &self.metas)?,
            dictionaries: dictionaries_copy(alloc, &self.dictionaries)?,
        })
    }
}

fn schema_copy(alloc: Global, schema: &Schema) -> Result<Schema, NoMemory>
    ensures { IfOk result (λ copy. copy.columns ≡ schema.now.columns) }
{
    let mut columns = Vec::new(alloc);
    for field in schema.columns.fields() {
        columns.push(FieldMeta {
            name: field.name.copy()?,
            nullable: field.nullable,
            shape: field.shape,
        })?;
    }
    Ok(Schema {
        columns: Columns::from_vec(columns),
    })
}

/// Equal metadata.
pub(crate) fn meta_copy(alloc: Global, meta: &RecordMeta) -> Result<RecordMeta, NoMemory>
    ensures { IfOk result (λ copy. copy ≡ meta.now) }
{
    Ok(RecordMeta {
        length: meta.length,
        nodes: Pairs::from_vec(meta.nodes.pairs().to_vec(alloc)?),
        buffers: Pairs::from_vec(meta.buffers.pairs().to_vec(alloc)?),
    })
}

fn found_copy(alloc: Global, meta: &Option<RecordMeta>) -> Result<Option<RecordMeta>, NoMemory>
    ensures { IfOk result (λ copy. copy ≡ meta.now) }
{
    match meta {
        Some(meta) => Ok(Some(meta_copy(alloc, meta)?)),
        None => Ok(None),
    }
}

fn metas_copy(
    alloc: Global,
    metas: &[Option<RecordMeta>],
) -> Result<Vec<Option<RecordMeta>>, NoMemory>
    ensures { IfOk result (λ copy. copy.items ≡ metas.now) }
{
    let mut copy = Vec::new(alloc);
    for meta in metas {
        copy.push(found_copy(alloc, meta)?)?;
    }
    Ok(copy)
}

fn text_copy(alloc: Global, texts: &TextCol) -> Result<TextCol, NoMemory>
    ensures { IfOk result (λ copy. copy ≡ texts.now) }
{
    let mut copy = TextBuilder::new(alloc);
    copy.append(&texts.view())?;
    Ok(copy.finish())
}

fn dictionaries_copy(
    alloc: Global,
    dictionaries: &[DictColumn],
) -> Result<Vec<DictColumn>, NoMemory>
    ensures { IfOk result (λ copy. map dictionary_seen copy.items ≡ map dictionary_seen dictionaries.now) }
{
    let mut copy = Vec::new(alloc);
    for dictionary in dictionaries {
        copy.push(dictionary_copy(alloc, dictionary)?)?;
    }
    Ok(copy)
}

fn dictionary_copy(alloc: Global, dictionary: &DictColumn) -> Result<DictColumn, NoMemory>
    ensures { IfOk result (λ copy. dictionary_seen copy ≡ dictionary_seen dictionary.now) }
{
    let values = match &dictionary.values {
        Some(texts) => Some(text_copy(alloc, texts)?),
        None => None,
    };
    Ok(DictColumn {
        column: dictionary.column,
        values,
    })
}
